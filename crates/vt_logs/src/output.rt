//! The text of a replay: the terminal's outputs, the faulty lines and the counts.

ghost use Rattle.std.specs.Prelude.{◌≡◌, ◌++◌, OnOk, OnErr, IfErr};
ghost use Rattle.std.specs.Fmt.{decimal};
ghost use Rattle.std.specs.List.{flat_map};
ghost use Rattle.std.specs.Io.KnownBytes.{Appends, Keeps};
ghost use Rattle.vt_logs.specs.EarlyEnds.{Begins};
ghost use Rattle.vt_logs.specs.Progress.{IsStepFault};
ghost use Rattle.vt_logs.specs.Texts.{output_text, refusal_name, line_fault_text, fault_name, counts_text};

use crate::counts::Counts;
use crate::fault::ReplayFault;
use crate::streams::Sink;
use itoa::Buffer;
use std::io::ErrorKind;
use vt_can::{LineFault, write_frame};
use vt_server::{OperatorFault, OperatorRefusal, Output};

/// The most writes of one text. A text that they do not write whole is the fault Write.
const WRITES: u32 = 1_000_000_000;

/// Writes the terminal's outputs, in order.
pub fn put_outputs<W: Sink>(outputs: &[Output], writer: &mut W) -> Result<(), ReplayFault>
    ensures text { OnOk result (Appends (W.contents writer.old) (W.contents writer.new) (flat_map output_text outputs.now)) }
    ensures front { OnErr result (Begins (W.contents writer.old) (W.contents writer.new) (flat_map output_text outputs.now)) }
    ensures fault { IfErr result (IsStepFault W.steady) }
{
    for output in outputs {
        put_output(output, writer)?;
    }
    Ok(())
}

/// Writes a frame, or a refusal to the operator, on a line of its own.
fn put_output<W: Sink>(output: &Output, writer: &mut W) -> Result<(), ReplayFault>
    ensures text { OnOk result (Appends (W.contents writer.old) (W.contents writer.new) (output_text output.now)) }
    ensures front { OnErr result (Begins (W.contents writer.old) (W.contents writer.new) (output_text output.now)) }
    ensures fault { IfErr result (IsStepFault W.steady) }
{
    match output {
        Output::Frame(frame) => {
            put(&write_frame(frame), writer)?;
            put(b"\n", writer)
        }
        Output::Refused(fault) => {
            put(b"operator ", writer)?;
            put(refusal_name(*fault).as_bytes(), writer)?;
            put(b"\n", writer)
        }
    }
}

/// The number and the name of a refusal to the operator, as a replay prints them, such as `1 NotShown`.
pub fn refusal_name(fault: OperatorFault) -> &'static str
    ensures { result.now ≡ refusal_name fault }
{
    match fault {
        OperatorFault::Refused(OperatorRefusal::NotShown) => "1 NotShown",
        OperatorFault::Refused(OperatorRefusal::Disabled) => "2 Disabled",
        OperatorFault::Refused(OperatorRefusal::Range) => "3 Range",
        OperatorFault::Refused(OperatorRefusal::TooLong) => "4 TooLong",
        OperatorFault::Refused(OperatorRefusal::WrongKind) => "5 WrongKind",
        OperatorFault::Refused(OperatorRefusal::NotPressed) => "6 NotPressed",
        OperatorFault::Refused(OperatorRefusal::Held) => "7 Held",
        OperatorFault::Busy => "8 Busy",
        OperatorFault::NoSet => "9 NoSet",
    }
}

/// Writes the fault of line `number`.
pub fn put_fault<W: Sink>(number: u64, fault: LineFault, writer: &mut W) -> Result<(), ReplayFault>
    ensures text { OnOk result (Appends (W.contents writer.old) (W.contents writer.new) (line_fault_text number fault)) }
    ensures front { OnErr result (Begins (W.contents writer.old) (W.contents writer.new) (line_fault_text number fault)) }
    ensures fault { IfErr result (IsStepFault W.steady) }
{
    put(b"line ", writer)?;
    put_number(number, writer)?;
    put(b" ", writer)?;
    put(fault_name(fault).as_bytes(), writer)?;
    put(b"\n", writer)
}

/// Writes the counts.
pub fn put_counts<W: Sink>(counts: &Counts, writer: &mut W) -> Result<(), ReplayFault>
    ensures text { OnOk result (Appends (W.contents writer.old) (W.contents writer.new) (counts_text counts.now)) }
    ensures front { OnErr result (Begins (W.contents writer.old) (W.contents writer.new) (counts_text counts.now)) }
    ensures fault { IfErr result (IsStepFault W.steady) }
{
    put_count("lines ", counts.lines, writer)?;
    put_count(" frames ", counts.frames, writer)?;
    put_count(" operator ", counts.operator, writer)?;
    put_count(" skipped ", counts.skipped, writer)?;
    put_count(" comments ", counts.comments, writer)?;
    put_count(" faults ", counts.faults, writer)?;
    put(b"\n", writer)
}

fn put_count<W: Sink>(label: &str, count: u64, writer: &mut W) -> Result<(), ReplayFault>
    ensures text { OnOk result (Appends (W.contents writer.old) (W.contents writer.new) (label.now ++ decimal count)) }
    ensures front { OnErr result (Begins (W.contents writer.old) (W.contents writer.new) (label.now ++ decimal count)) }
    ensures fault { IfErr result (IsStepFault W.steady) }
{
    put(label.as_bytes(), writer)?;
    put_number(count, writer)
}

fn put_number<W: Sink>(number: u64, writer: &mut W) -> Result<(), ReplayFault>
    ensures text { OnOk result (Appends (W.contents writer.old) (W.contents writer.new) (decimal number)) }
    ensures front { OnErr result (Begins (W.contents writer.old) (W.contents writer.new) (decimal number)) }
    ensures fault { IfErr result (IsStepFault W.steady) }
{
    put(Buffer::new().format(number).as_bytes(), writer)
}

/// Writes bytes as they are, with several writes if one does not take them all. After a fault, none, some or all of the
/// bytes are written, always the first ones.
pub fn put<W: Sink>(bytes: &[u8], writer: &mut W) -> Result<(), ReplayFault>
    ensures text { OnOk result (Appends (W.contents writer.old) (W.contents writer.new) bytes.now) }
    ensures front { OnErr result (Begins (W.contents writer.old) (W.contents writer.new) bytes.now) }
    ensures fault { IfErr result (IsStepFault W.steady) }
{
    let mut rest = bytes;
    for _ in 0..WRITES {
        if rest.is_empty() {
            return Ok(());
        }
        match writer.write_some(rest) {
            Ok(0) => return Err(ReplayFault::Write),
            Ok(count) => rest = &rest[count..],
            Err(fault) => match fault.kind() {
                ErrorKind::Interrupted => {}
                ErrorKind::OutOfMemory => return Err(ReplayFault::Memory),
                _ => return Err(ReplayFault::Write),
            },
        }
    }
    Err(ReplayFault::Write)
}

/// Flushes the writer.
pub fn flush<W: Sink>(writer: &mut W) -> Result<(), ReplayFault>
    ensures kept { Keeps (W.contents writer.old) (W.contents writer.new) }
    ensures fault { IfErr result (IsStepFault W.steady) }
{
    writer.write_out().map_err(|_| ReplayFault::Write)
}

/// The name of a line's fault.
fn fault_name(fault: LineFault) -> &'static str
    ensures { result.now ≡ fault_name fault }
{
    match fault {
        LineFault::Time => "Time",
        LineFault::Shape => "Shape",
        LineFault::Hex => "Hex",
        LineFault::Length => "Length",
        LineFault::Operator => "Operator",
    }
}
