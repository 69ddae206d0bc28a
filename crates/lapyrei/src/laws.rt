//! What holds of the calls' answers. The functions do nothing: their contracts are the laws.

ghost use Rattle.lapyrei.specs.Laws.{AnswersAskOncePerPage, WholeFilesSuffice};

/// Where all bytes of the file are there, no call asks for bytes.
pub fn whole_files_suffice()
    ensures { WholeFilesSuffice }
{}

/// A call that is made again with the bytes that it asked for, and with those that were there, asks for bytes at most
/// as often as the file has pages.
pub fn answers_ask_once_per_page()
    ensures { AnswersAskOncePerPage }
{}
