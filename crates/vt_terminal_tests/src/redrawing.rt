//! Whether the terminal reports that the screen may have changed: a program draws it only then, and cannot show that it drew in vain.

use super::terminal::{input_of, preloaded};
use std::process::Abort;
use std::test::Fail;
use vt_server::*;

// Working Set 0, Data Mask 1000, and in it Container 100 and Input String 301, of 8 bytes. Alarm Mask 1001.
const DRAWN: &[u8] = b"\x00\x00\x00\x00\x01\xE8\x03\x00\x00\x00\
    \xE8\x03\x01\x00\xFF\xFF\x02\x00\x64\x00\x0A\x00\x05\x00\x2D\x01\x00\x00\x00\x00\
    \xE9\x03\x02\x00\xFF\xFF\x00\x00\x00\x00\
    \x64\x00\x03\x32\x00\x14\x00\x00\x00\x00\
    \x2D\x01\x08\x0A\x00\x05\x00\x00\xFF\xFF\xFF\xFF\x00\xFF\xFF\x00\x08        \x01\x00";

// Lines, and whether the screen may have changed after each. The set at 80 is shown. Another set, with Working Set 0 and Data Mask 2000,
// uploads a pool at 81, and is shown then.
const WHILE_SHOWN: [(&[u8], bool); 37] = [
    (b"(1.000000) can0 18FFFF55#00", false),
    (b"(1.000000) can0 18EA2655#00EE00", false),
    // A set at 81 registers and uploads its pool.
    (b"(1.000000) can0 18EEFF81#0200000000800020", false),
    (b"(1.000000) can0 18FE0D81#01FFFFFFFFFFFFFF", false),
    (b"(1.000000) can0 14E72681#110000000001D007", false),
    (b"(1.000000) can0 14E72681#11000000D0070100", false),
    (b"(1.000000) can0 14E72681#11FFFF0000", false),
    (b"(1.000000) can0 14E72681#12", false),
    // A command to the set at 81, a refused command to the shown set, and messages that are no commands.
    (b"(1.000000) can0 14E72681#A7D00701FFFFFFFF", false),
    (b"(1.000000) can0 14E72680#A0C80001FFFFFFFF", false),
    (b"(1.000000) can0 14E72680#C2", false),
    (b"(1.000000) can0 14E72680#FFFFFFFFFFFFFFFF", false),
    // Commands to the shown set that are done.
    (b"(1.000000) can0 14E72680#A0640000FFFFFFFF", true),
    (b"(1.000000) can0 18FFFF80#00", false),
    (b"(1.000000) can0 14E72680#A0640001FFFFFFFF", true),
    // A container that is shown already, a colour, a priority, and the size of an input are in no text; the size of a container is.
    (b"(1.000000) can0 14E72680#A0640001FFFFFFFF", false),
    (b"(1.000000) can0 14E72680#A7E80307FFFFFFFF", false),
    (b"(1.000000) can0 14E72680#B0E90301FFFFFFFF", false),
    (b"(1.000000) can0 14E72680#A62D0133001400FF", false),
    (b"(1.000000) can0 14E72680#A6640033001400FF", true),
    // A command in packets, complete with the last one.
    (b"(1.000000) can0 1CEC2680#10090002FF00E700", false),
    (b"(1.000000) can0 1CEB2680#01B4E8036400FFFF", false),
    (b"(1.000000) can0 1CEB2680#020500FFFFFFFFFF", true),
    // Actions of the operator.
    (b"! press 500", false),
    (b"! text 301 ABCDEFGHI", false),
    (b"! text 301 ABCD", true),
    (b"! text 301 ABCDEFGH", true),
    (b"! text 301 ABCDEFGH", false),
    (b"! set 55", false),
    (b"! set 80", false),
    (b"! set 81", true),
    // Commands while the other set is shown: to the first set, and a colour and a soft key mask of the other.
    (b"(1.000000) can0 14E72680#A0640000FFFFFFFF", false),
    (b"(1.000000) can0 14E72681#A7D00701FFFFFFFF", false),
    (b"(1.000000) can0 14E72681#AE01D007FFFFFFFF", true),
    // A refused update, and an empty update.
    (b"(1.000000) can0 14E72681#11010022", false),
    (b"(1.000000) can0 14E72681#12", false),
    (b"(1.000000) can0 14E72681#12", true),
];

// Lines that end the shown set, and an upload that brings one.
const WHEN_IT_ENDS: [(&[u8], bool); 14] = [
    (b"(1.000000) can0 18EEFF80#0100000000800020", false),
    (b"(1.000000) can0 14E72680#B2FFFFFFFFFFFFFF", true),
    (b"(1.000000) can0 14E72680#12", false),
    (b"(1.000000) can0 14E72680#110000000001E803", false),
    (b"(1.000000) can0 14E72680#11000000E8030100", false),
    (b"(1.000000) can0 14E72680#11FFFF0000", false),
    (b"(1.000000) can0 14E72680#12", true),
    (b"(1.000000) can0 14E72680#12", true),
    (b"(4.000000) can0 18FFFF55#00", false),
    (b"(4.000001) can0 18FFFF55#00", true),
    (b"(9.000000) can0 18FFFF55#00", false),
    // The loss of the address, after which all frames are ignored.
    (b"(1.000000) can0 18EEFF26#0000000000000000", true),
    (b"(1.000000) can0 14E72680#A0640000FFFFFFFF", false),
    (b"! set 80", false),
];

fn expect_redraws(
    rt: &(impl Abort + AllocGlobal),
    terminal: &mut Terminal,
    lines: &[(&[u8], bool)],
) -> Result<(), Fail> {
    for (line, redraws) in lines {
        let mut outputs = Vec::new(rt.alloc());
        terminal.step(&input_of(line)?, &mut outputs)?;
        assert_eq!(rt; terminal.redraws(), *redraws, "{line:?}");
    }
    Ok(())
}

#[test]
fn inputs_that_change_the_screen_and_others(rt: HostRuntime) -> Result<(), Fail> {
    for lines in [WHILE_SHOWN.as_slice(), WHEN_IT_ENDS.as_slice()] {
        let mut terminal = preloaded(&rt, DRAWN)?;
        expect_redraws(&rt, &mut terminal, lines)?;
    }
    Ok(())
}

// Runs of three inputs, and whether the screen may have changed after each: by a command that stands first, between others, last, or by
// none.
const RUNS: [([&[u8]; 3], bool); 4] = [
    ([HIDES, NOTHING, NOTHING], true),
    ([NOTHING, NOTHING, NOTHING], false),
    ([NOTHING, SHOWS, NOTHING], true),
    ([NOTHING, NOTHING, HIDES], true),
];

const HIDES: &[u8] = b"(1.000000) can0 14E72680#A0640000FFFFFFFF";

const SHOWS: &[u8] = b"(1.000000) can0 14E72680#A0640001FFFFFFFF";

const NOTHING: &[u8] = b"(1.000000) can0 18FFFF80#00";

#[test]
fn runs_that_change_the_screen_and_others(rt: HostRuntime) -> Result<(), Fail> {
    let mut terminal = preloaded(&rt, DRAWN)?;
    for ([a, b, c], redraws) in RUNS {
        let inputs = [input_of(a)?, input_of(b)?, input_of(c)?];
        let mut outputs = Vec::new(rt.alloc());
        assert_eq!(rt; terminal.run(&inputs, &mut outputs), Ok(()));
        assert_eq!(rt; terminal.redraws(), redraws);
    }
    Ok(())
}
