//! What holds of all window files. The law stands as the contract of a function with an empty body.

ghost use Rattle.window_files.specs.Files.{IsOfOneWindow};

/// Two windows with one file are the same one: what is written is read back.
pub fn a_file_is_of_one_window()
    ensures { IsOfOneWindow }
{}
