//! Calls that are refused memory: each leaves the terminal unchanged, and repeated it answers as if memory had not been refused.

use super::terminal::{NAME, OWN, POOL, accepted_pool, expect_sent, input_of, terminal};
use std::process::Abort;
use std::test::Fail;
use vt_names::Name;
use vt_node::Profile;
use vt_server::*;

const LINES: [&[u8]; 27] = [
    // A set of two members registers.
    b"(1.000000) can0 18EEFF80#0100000000800020",
    b"(1.000000) can0 18FE0D80#02FFFFFFFFFFFFFF",
    b"(1.000000) can0 18EEFF82#0200000000800020",
    b"(1.000000) can0 18FE0C80#0200000000800020",
    // The set uploads its pool.
    b"(1.000000) can0 14E72680#110000000001E803",
    b"(1.000000) can0 14E72680#11000000E8030100",
    b"(1.000000) can0 14E72680#11FFFF020064000A",
    b"(1.000000) can0 14E72680#110005002D010000",
    b"(1.000000) can0 14E72680#1100006400033200",
    b"(1.000000) can0 14E72680#1114000000002D01",
    b"(1.000000) can0 14E72680#11080A00050000FF",
    b"(1.000000) can0 14E72680#11FFFFFF00FFFF00",
    b"(1.000000) can0 14E72680#1108202020202020",
    b"(1.000000) can0 14E72680#1120200100",
    b"(1.000000) can0 14E72680#12FFFFFFFFFFFFFF",
    // A command, a command in packets, and an RTS of the extended protocol from another node.
    b"(1.000000) can0 14E72680#A0640000FFFFFFFF",
    b"(1.000000) can0 1CEC2680#10090002FF00E700",
    b"(1.000000) can0 1CEB2680#01B4E8036400FFFF",
    b"(1.000000) can0 1CEB2680#020500FFFFFFFFFF",
    b"(1.000000) can0 1CC82682#140900000000E700",
    // A text of the operator is sent in packets, and an input is selected.
    b"! text 301 ABCDEFGH",
    b"! select 301",
    // The set updates its pool: by an object in place of another, and by one more.
    b"(1.000000) can0 14E72680#1164000332001400",
    b"(1.000000) can0 14E72680#11000000",
    b"(1.000000) can0 14E72680#12FFFFFFFFFFFFFF",
    b"(1.000000) can0 14E72680#11C8001507000000",
    b"(1.000000) can0 14E72680#12FFFFFFFFFFFFFF",
];

// The outputs for all lines.
const SENT: [&str; 10] = [
    "14E68026#1200FFFFFFFF00FF",
    "14E6FF26#FE80E803FFFF00FF",
    "14E68026#A064000000FFFFFF",
    "1CEC8026#110201FFFF00E700",
    "1CEC8026#13090002FF00E700",
    "14E68026#B4E803640000FFFF",
    "1CC88226#150201000000E700",
    "1CEC8026#100C0002FF00E600",
    "14E68026#1200FFFFFFFF00FF",
    "14E68026#1200FFFFFFFF00FF",
];

const SCREEN: &[u8] =
    b"screen 80 mask 1000\ncontainer 100 -1 5 50x20\ninput 301 0 0 \"ABCDEFGH\"\n";

// Whether the set at 80 is registered, has a pool, and is shown.
fn state_of_set(terminal: &Terminal) -> [bool; 3] {
    [
        terminal.registered(0x80),
        terminal.set(0x80).is_some(),
        terminal.shown() == Some(0x80),
    ]
}

// Takes an input, alone or in a run, and again if memory was refused.
fn take(
    rt: &(impl Abort + AllocGlobal),
    terminal: &mut Terminal,
    input: Input<'_>,
    in_a_run: bool,
    outputs: &mut Vec<Output>,
) -> Result<(), Fail> {
    let before = (state_of_set(terminal), outputs.len());
    let inputs = [input];
    let is_taken = match in_a_run {
        true => terminal.run(&inputs, outputs).is_ok(),
        false => terminal.step(&inputs[0], outputs).is_ok(),
    };
    if !is_taken {
        assert!(rt; (state_of_set(terminal), outputs.len()) == before);
        terminal.step(&inputs[0], outputs)?;
    }
    Ok(())
}

// Takes all lines, step by step or in runs, and draws the screen.
fn expect_lines(
    rt: &(impl Abort + AllocGlobal),
    terminal: &mut Terminal,
    in_runs: bool,
) -> Result<(), Fail> {
    let mut outputs = Vec::new(rt.alloc());
    for line in LINES {
        take(rt, terminal, input_of(line)?, in_runs, &mut outputs)?;
    }
    expect_sent(rt, &outputs, &SENT);
    let mut screen = Vec::new(rt.alloc());
    if terminal.screen(&mut screen).is_err() {
        assert!(rt; screen.is_empty());
        terminal.screen(&mut screen)?;
    }
    assert_eq!(rt; screen.as_slice(), SCREEN);
    Ok(())
}

// Preloads the pool at 80 in a new terminal.
fn expect_preloaded(rt: &(impl Abort + AllocGlobal)) -> Result<(), Fail> {
    let accepted = match accepted_pool(rt.alloc(), POOL) {
        Ok(accepted) => accepted,
        Err(_) => accepted_pool(rt.alloc(), POOL)?,
    };
    let mut terminal = Terminal::new(rt.alloc(), OWN, Name::from_raw(NAME));
    if terminal.preload(0x80, &accepted).is_err() {
        assert!(rt; state_of_set(&terminal) == [false; 3]);
        terminal.preload(0x80, &accepted)?;
    }
    assert!(rt; state_of_set(&terminal) == [true; 3]);
    Ok(())
}

#[test]
fn want_of_memory(rt: HostRuntime) -> Result<(), Fail> {
    expect_preloaded(&rt)?;
    for in_runs in [false, true] {
        expect_lines(&rt, &mut terminal(&rt, Profile::standard()), in_runs)?;
    }
    Ok(())
}
