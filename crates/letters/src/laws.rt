//! What holds of all letters. Each law stands as the contract of a function with an empty body.

ghost use Rattle.letters.specs.Laws.{TextsAreOfOne, AreReadBack, FramesAreLetters, LettersFit};

/// One text is of one letter.
pub fn one_text_is_of_one_letter()
    ensures { TextsAreOfOne }
{}

/// What is written is read back: whatever `read` may say of a letter's spelling is that letter.
pub fn what_is_written_is_read_back()
    ensures { AreReadBack }
{}

/// A frame of the grammar, in either version, is a letter as it is, and no other letter has its text.
pub fn each_frame_is_a_letter()
    ensures { FramesAreLetters }
{}

/// No letter is longer than the longest item on a wire, where the frame or the request that it brings isn't longer than
/// the longest frame.
pub fn each_letter_fits()
    ensures { LettersFit }
{}
