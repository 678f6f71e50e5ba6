//! Request lines: what holds of all of them and of the items of all texts, and what some texts are.

ghost use Rattle.worked_examples.specs.Lines.{OneHead, LinesFit, OneFirstItem, ItemsStay, NoItemYet};
ghost use Rattle.worked_examples.specs.Lines.{ItemOrUnfinished, OneListOfItems, OneCanonical, OneSpelling};
ghost use Rattle.worked_examples.specs.Lines.{FindsRequests, CanonicalFits, WholeSet, QuietSet};
ghost use Rattle.worked_examples.specs.Lines.{SixteenKeys, Quit, AfterQuit, NoDataEnd, UnknownTouch};
ghost use Rattle.worked_examples.specs.Lines.{AfterUnknown, NoKey, SeventeenKeys, Expiry, PaddedNumber};
ghost use Rattle.worked_examples.specs.Lines.{QuitWithField, TooMuchData, TooLong, TooManyLetters};
ghost use Rattle.worked_examples.specs.Lines.{MuchData, DataCut, LineCut, NotTooLong, ManyLetters};
ghost use Rattle.worked_examples.specs.Lines.{PayloadOfSet, PayloadOfQuit, PayloadOfGet, PayloadPadded};
ghost use Rattle.worked_examples.specs.Lines.{PayloadOfLetters, PayloadOfCas};

/// A line is of one head, with `noreply` or without.
pub fn a_line_says_one_thing()
    ensures { OneHead }
{}

/// A well-formed line fits with its end, and no end stands within it.
pub fn a_well_formed_line_fits()
    ensures { LinesFit }
{}

/// A text has one first item, and it takes one number of bytes.
pub fn a_text_has_one_first_item()
    ensures { OneFirstItem }
{}

/// The item that a text begins with is still there when more bytes come.
pub fn an_item_stays_when_bytes_are_appended()
    ensures { ItemsStay }
{}

/// A text that is unfinished has no item.
pub fn an_unfinished_text_has_no_item()
    ensures { NoItemYet }
{}

/// Each text has an item or is unfinished.
pub fn every_text_has_an_item_or_is_unfinished()
    ensures { ItemOrUnfinished }
{}

/// Each text has one list of items, that is all that is read of it.
pub fn every_text_has_one_list_of_items()
    ensures { OneListOfItems }
{}

/// The canonical text of a request tells which request it is.
pub fn the_canonical_text_is_of_one_request()
    ensures { OneCanonical }
{}

/// The text of a request, with `noreply` or without, tells which request it is and whether
/// `noreply` stands there.
pub fn the_spelling_is_of_one_request()
    ensures { OneSpelling }
{}

/// `request_of` gives a request just where the payload is its canonical text.
pub fn request_of_finds_the_request()
    ensures { FindsRequests }
{}

/// A canonical text has at most 4,393 bytes.
pub fn a_canonical_text_has_at_most_4393_bytes()
    ensures { CanonicalFits }
{}

/// A `set` with its data is a request of 16 bytes.
pub fn a_set_is_a_request()
    ensures { WholeSet }
{}

/// A `set` with the word `noreply` is a request of 24 bytes.
pub fn a_quiet_set_is_a_request()
    ensures { QuietSet }
{}

/// A `get` may have 16 keys.
pub fn sixteen_keys_are_a_request()
    ensures { SixteenKeys }
{}

/// The line `quit` takes its 6 bytes.
pub fn quit_is_the_end()
    ensures { Quit }
{}

/// What stands behind `quit` is not read.
pub fn nothing_is_read_after_quit()
    ensures { AfterQuit }
{}

/// The two bytes after the data have to be CR LF.
pub fn data_without_its_end_is_a_bad_chunk()
    ensures { NoDataEnd }
{}

/// A line with an unknown name is left out whole.
pub fn an_unknown_name_takes_its_line()
    ensures { UnknownTouch }
{}

/// The line behind one with an unknown name is a request.
pub fn the_line_after_an_unknown_name_is_read()
    ensures { AfterUnknown }
{}

/// A `get` has one key at least.
pub fn get_without_a_key_has_bad_fields()
    ensures { NoKey }
{}

/// A `get` may not have 17 keys.
pub fn seventeen_keys_are_bad_fields()
    ensures { SeventeenKeys }
{}

/// The time of expiry has to be 0.
pub fn an_expiry_is_a_bad_field()
    ensures { Expiry }
{}

/// A number has no zero in front.
pub fn a_padded_number_is_a_bad_field()
    ensures { PaddedNumber }
{}

/// Nothing may stand behind `quit` in its line.
pub fn quit_takes_no_field()
    ensures { QuitWithField }
{}

/// A line may not announce 4,097 bytes of data.
pub fn more_than_4096_bytes_of_data_are_too_large()
    ensures { TooMuchData }
{}

/// 4,096 bytes with no CR LF are too long a line.
pub fn a_line_is_too_long_at_4096_bytes()
    ensures { TooLong }
{}

/// The letter a 4,096 times is too long a line.
pub fn a_letter_4096_times_is_too_long()
    ensures { TooManyLetters }
{}

/// A line may announce 4,096 bytes of data.
pub fn data_of_4096_bytes_is_waited_for()
    ensures { MuchData }
{}

/// With one byte after the data the request is unfinished.
pub fn data_that_is_cut_is_unfinished()
    ensures { DataCut }
{}

/// With CR alone the line is unfinished.
pub fn a_line_without_its_lf_is_unfinished()
    ensures { LineCut }
{}

/// 4,095 bytes with no CR LF are an unfinished line.
pub fn a_line_is_unfinished_at_4095_bytes()
    ensures { NotTooLong }
{}

/// The letter a 4,095 times is an unfinished line.
pub fn a_letter_4095_times_is_unfinished()
    ensures { ManyLetters }
{}

/// `request_of` reads a `set`.
pub fn request_of_a_set()
    ensures { PayloadOfSet }
{}

/// The line `quit` is no request.
pub fn request_of_quit_is_none()
    ensures { PayloadOfQuit }
{}

/// `request_of` reads a `get` of two keys.
pub fn request_of_a_get()
    ensures { PayloadOfGet }
{}

/// A request with a zero in front of a number is none.
pub fn request_of_a_padded_number_is_none()
    ensures { PayloadPadded }
{}

/// Letters are no request.
pub fn request_of_letters_is_none()
    ensures { PayloadOfLetters }
{}

/// The data of a `cas` may be CR LF.
pub fn request_of_a_cas()
    ensures { PayloadOfCas }
{}
