//! Files that are no log of candump, and how to convert them into a log.

/// The byte order mark of a text in UTF-8.
const MARK: &[u8] = b"\xEF\xBB\xBF";

const VECTOR_TEXT: &str =
    "this is a Vector log (.asc); convert it: python3 -m can.logconvert my.asc my.log";

const VECTOR_BINARY: &str =
    "this is a Vector log (.blf); convert it: python3 -m can.logconvert my.blf my.log";

const PEAK: &str = "this is a PEAK log (.trc); convert it: python3 -m can.logconvert my.trc my.log";

const CAPTURE: &str = "this is a pcap capture; export its frames as candump -L writes them";

const UTF_16: &str = "this is a text in UTF-16; save it as ASCII or UTF-8";

const MARKED: &str =
    "the text begins with a byte order mark, so its first line is not read; save it without the mark";

/// The first bytes of files, each with what such a file is and how to convert it into a log.
const FORMS: [(&[u8], &str); 10] = [
    (b"date ", VECTOR_TEXT),
    (b"LOGG", VECTOR_BINARY),
    (b";$FILEVERSION", PEAK),
    (b"\xD4\xC3\xB2\xA1", CAPTURE),
    (b"\xA1\xB2\xC3\xD4", CAPTURE),
    (b"\x4D\x3C\xB2\xA1", CAPTURE),
    (PCAPNG, CAPTURE),
    (b"\xFF\xFE", UTF_16),
    (b"\xFE\xFF", UTF_16),
    (MARK, MARKED),
];

/// The first bytes of a capture in pcapng, which begin with an empty line.
const PCAPNG: &[u8] = b"\n\r\r\n";

/// What a file is and how to convert it into a log, by its first bytes. `None` if these are not known.
pub fn form_of(file: &[u8]) -> Option<&'static str> {
    FORMS
        .iter()
        .find(|(start, _)| file.starts_with(start))
        .map(|(_, what)| *what)
}

/// What a file is and how to convert it into a log, by the first line that could not be read and its number, from 1. `None` if the
/// line does not show it.
pub(crate) fn form_by(number: u64, line: &[u8]) -> Option<&'static str> {
    match number {
        1 => form_of(line),
        2 if line.starts_with(b"\r\r") => form_of(PCAPNG),
        _ => None,
    }
}
