//! The codes of findings and warnings.

ghost use Rattle.std.specs.Prelude.{◌≡◌};
ghost use Rattle.check_text.specs.Codes as codes;

use crate::item::Item;
use check_inspect::{Finding, Note};
use check_needs::Warning;
use check_values::ValueWarning;
use vt_pool::PoolFault;

/// The printed code of a finding, a warning or a note, with its name, such as `Missing`. Its letter is P for faults of records, R
/// for rules of a pool, N for notes, and W for what no terminal refuses. Its number is that of docs/POOLS.md.
#[derive(Clone, Copy, PartialEq, Eq)]
pub struct Code {
    /// The letter and the number.
    pub code: &'static str,
    /// The name.
    pub name: &'static str,
}

impl Code {
    /// Whether a word is the code or the name, in capital or small letters.
    pub fn is_called(&self, word: &str) -> bool {
        is_either(word, self.code, self.name)
    }
}

/// Whether a word is the code of an error or a warning, or the name of one, in capital or small letters.
pub fn is_code(word: &str) -> bool {
    CODES.iter().any(|(code, name)| is_either(word, code, name))
}

fn is_either(word: &str, code: &str, name: &str) -> bool {
    word.eq_ignore_ascii_case(code) || word.eq_ignore_ascii_case(name)
}

/// The codes of errors and warnings, with their names.
const CODES: [(&str, &str); 41] = [
    ("P01", "Truncated"),
    ("P02", "UnknownType"),
    ("P03", "LeftOutType"),
    ("P04", "Scale"),
    ("P05", "Decimals"),
    ("P07", "NullId"),
    ("R01", "NoWorkingSet"),
    ("R02", "TwoWorkingSets"),
    ("R03", "Missing"),
    ("R04", "WrongKind"),
    ("R05", "TooDeep"),
    ("R06", "MacroBytes"),
    ("R07", "MacroCommand"),
    ("R08", "MacroMissing"),
    ("R09", "MacroKind"),
    ("R10", "MacroValue"),
    ("R11", "MacroCircle"),
    ("R12", "OverBudget"),
    ("W01", "Replaced"),
    ("W02", "Unused"),
    ("W03", "TextTooWide"),
    ("W04", "TextTooHigh"),
    ("W05", "Outside"),
    ("W06", "ExtraKeys"),
    ("W07", "OtherKind"),
    ("W08", "NoMeaning"),
    ("W09", "EmptyRange"),
    ("W10", "OutOfRange"),
    ("W11", "NoItem"),
    ("W12", "PictureBytes"),
    ("W13", "FewPoints"),
    ("W14", "PointOutside"),
    ("W15", "ShortVariable"),
    ("W16", "NeverRaised"),
    ("W17", "NoActiveMask"),
    ("W18", "NoDesignator"),
    ("W19", "NoLanguage"),
    ("W20", "InputThere"),
    ("W21", "NoCode"),
    ("W22", "SameColour"),
    ("W23", "SameCode"),
];

fn code_named(code: &'static str, name: &'static str) -> Code
    ensures { codes.texts result ≡ (code.now, name.now) }
{
    Code { code, name }
}

/// The code of an item (docs/POOLS.md).
pub fn code_of(item: Item<'_>) -> Code
    ensures { codes.texts result ≡ codes.code_of item.entry }
{
    match item {
        Item::Finding(finding) => finding_code(finding),
        Item::Clash(_) => code_named("W07", "OtherKind"),
        Item::Replaced(_) => code_named("W01", "Replaced"),
        Item::Warning(warning) => warning_code(warning),
        Item::Value(warning) => value_code(warning),
        Item::Note(note) => note_code(note),
    }
}

fn finding_code(finding: &Finding) -> Code
    ensures { codes.texts result ≡ codes.finding_code finding.now }
{
    match finding {
        Finding::Record(fault) => fault_code(*fault),
        Finding::NoWorkingSet => code_named("R01", "NoWorkingSet"),
        Finding::TwoWorkingSets { .. } => code_named("R02", "TwoWorkingSets"),
        Finding::Missing(_) => code_named("R03", "Missing"),
        Finding::WrongKind(_) => code_named("R04", "WrongKind"),
        Finding::TooDeep { .. } => code_named("R05", "TooDeep"),
        Finding::MacroBytes { .. } => code_named("R06", "MacroBytes"),
        Finding::MacroCommand { .. } => code_named("R07", "MacroCommand"),
        Finding::MacroMissing(_) => code_named("R08", "MacroMissing"),
        Finding::MacroKind(_) => code_named("R09", "MacroKind"),
        Finding::MacroValue { .. } => code_named("R10", "MacroValue"),
        Finding::MacroCircle { .. } => code_named("R11", "MacroCircle"),
        Finding::OverBudget { .. } => code_named("R12", "OverBudget"),
    }
}

fn fault_code(fault: PoolFault) -> Code
    ensures { codes.texts result ≡ codes.fault_code fault }
{
    match fault {
        PoolFault::Truncated { .. } => code_named("P01", "Truncated"),
        PoolFault::UnknownType { .. } => code_named("P02", "UnknownType"),
        PoolFault::LeftOutType { .. } => code_named("P03", "LeftOutType"),
        PoolFault::Scale { .. } => code_named("P04", "Scale"),
        PoolFault::Decimals { .. } => code_named("P05", "Decimals"),
        PoolFault::OutOfMemory { .. } => code_named("P06", "OutOfMemory"),
        PoolFault::NullId { .. } => code_named("P07", "NullId"),
    }
}

fn warning_code(warning: &Warning) -> Code
    ensures { codes.texts result ≡ codes.warning_code warning.now }
{
    match warning {
        Warning::Unused { .. } => code_named("W02", "Unused"),
        Warning::TextTooWide(_) => code_named("W03", "TextTooWide"),
        Warning::TextTooHigh(_) => code_named("W04", "TextTooHigh"),
        Warning::Outside { .. } => code_named("W05", "Outside"),
        Warning::ExtraKeys { .. } => code_named("W06", "ExtraKeys"),
    }
}

fn value_code(warning: &ValueWarning) -> Code
    ensures { codes.texts result ≡ codes.value_code warning.now }
{
    match warning {
        ValueWarning::NoMeaning { .. } => code_named("W08", "NoMeaning"),
        ValueWarning::EmptyRange { .. } => code_named("W09", "EmptyRange"),
        ValueWarning::OutOfRange(_) => code_named("W10", "OutOfRange"),
        ValueWarning::NoItem { .. } => code_named("W11", "NoItem"),
        ValueWarning::PictureBytes { .. } | ValueWarning::HalfPair { .. } => {
            code_named("W12", "PictureBytes")
        }
        ValueWarning::FewPoints { .. } => code_named("W13", "FewPoints"),
        ValueWarning::PointOutside(_) => code_named("W14", "PointOutside"),
        ValueWarning::ShortVariable(_) => code_named("W15", "ShortVariable"),
        ValueWarning::NeverRaised { .. } => code_named("W16", "NeverRaised"),
        ValueWarning::NoActiveMask { .. } => code_named("W17", "NoActiveMask"),
        ValueWarning::NoDesignator { .. } => code_named("W18", "NoDesignator"),
        ValueWarning::NoLanguage(_) => code_named("W19", "NoLanguage"),
        ValueWarning::InputThere { .. } => code_named("W20", "InputThere"),
        ValueWarning::NoCode { .. } => code_named("W21", "NoCode"),
        ValueWarning::SameColour { .. } => code_named("W22", "SameColour"),
        ValueWarning::SameCode { .. } => code_named("W23", "SameCode"),
    }
}

fn note_code(note: Note) -> Code
    ensures { codes.texts result ≡ codes.note_code note }
{
    match note {
        Note::Unread { .. } => code_named("N01", "Unread"),
        Note::UnknownTriggers => code_named("N02", "UnknownTriggers"),
        Note::UnknownCosts => code_named("N03", "UnknownCosts"),
        Note::PassedOver => code_named("N04", "PassedOver"),
    }
}
