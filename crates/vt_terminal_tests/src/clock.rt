//! Tests of ticks and deadlines, and of what a terminal says about itself.

use super::terminal::{OWN, POOL, expect_frame, expect_sent, input_of, preloaded, terminal};
use std::process::Abort;
use std::test::Fail;
use vt_node::Profile;
use vt_server::*;

const CLAIM: &str = "18EEFF26#01000000001D0020";

const CLOSED: &str = "14E6FF26#FEFEFFFFFFFF00FF";

const TIMED_OUT: &str = "1CEC8026#FF03FFFFFF00E700";

// A step of a script.
#[derive(Clone, Copy)]
enum Step {
    // A frame with its time, and the frames sent for it.
    Line(&'static str, &'static [&'static str]),
    // A tick at a time in microseconds, and the frames sent for it.
    Tick(u64, &'static [&'static str]),
    // The deadline.
    Due(Option<u64>),
    // Whether the terminal has lost its address.
    Lost(bool),
    // The status message.
    Status(&'static str),
}

// Without a set and a session no tick is ever due.
const IDLE: [Step; 5] = [
    Step::Due(None),
    Step::Tick(1_000_000, &[]),
    Step::Due(None),
    Step::Tick(u64::MAX, &[]),
    Step::Status(CLOSED),
];

// The silence of a preloaded set begins with the first tick, and ends after three seconds.
const SILENT: [Step; 8] = [
    Step::Due(Some(0)),
    Step::Tick(5_000_000, &[]),
    Step::Status("14E6FF26#FE80E803FFFF00FF"),
    Step::Due(Some(8_000_001)),
    Step::Tick(8_000_000, &[]),
    Step::Due(Some(8_000_001)),
    Step::Tick(8_000_001, &[CLOSED]),
    Step::Due(None),
];

// A frame of the set begins its silence anew. An earlier time counts as the latest.
const HEARD: [Step; 6] = [
    Step::Tick(5_000_000, &[]),
    Step::Line("(6.000000) can0 18FFFF80#", &[]),
    Step::Due(Some(9_000_001)),
    Step::Tick(1, &[]),
    Step::Line("(2.000000) can0 18FFFF80#", &[]),
    Step::Due(Some(9_000_001)),
];

// A session ends a second and a quarter after its last frame, and a set later.
const SESSION: [Step; 7] = [
    Step::Tick(1_000_000, &[]),
    Step::Line(
        "(1.000000) can0 1CEC2680#10090002FF00E700",
        &["1CEC8026#110201FFFF00E700"],
    ),
    Step::Due(Some(2_250_001)),
    Step::Tick(2_250_000, &[]),
    Step::Tick(2_250_001, &[TIMED_OUT]),
    Step::Due(Some(4_000_001)),
    Step::Tick(4_000_001, &[CLOSED]),
];

// One late tick ends both: first the session, then the set.
const LATE: [Step; 4] = [
    Step::Tick(1_000_000, &[]),
    Step::Line(
        "(1.000000) can0 1CEC2680#10090002FF00E700",
        &["1CEC8026#110201FFFF00E700"],
    ),
    Step::Tick(9_000_000, &[TIMED_OUT, CLOSED]),
    Step::Due(None),
];

// A lost terminal sends nothing, and no tick is due.
const LOST: [Step; 6] = [
    Step::Tick(1_000_000, &[]),
    Step::Lost(false),
    Step::Line(
        "(1.000000) can0 18EEFF26#0000000000000000",
        &["18EEFFFE#01000000001D0020"],
    ),
    Step::Lost(true),
    Step::Due(None),
    Step::Tick(9_000_000, &[]),
];

// The answers with the profile of `narrow`.
const TECHNICAL: [Step; 6] = [
    Step::Line("(1.000000) can0 18EEFF80#0100000000800020", &[]),
    Step::Line("(1.000000) can0 18FE0D80#01FFFFFFFFFFFFFF", &[]),
    Step::Line(
        "(1.000000) can0 14E72680#C000000001FFFFFF",
        &["14E68026#C00301FFFFFFFFFF"],
    ),
    Step::Line(
        "(1.000000) can0 14E72680#C2FFFFFFFFFFFFFF",
        &["14E68026#C2FFFFFF303C0A08"],
    ),
    Step::Line(
        "(1.000000) can0 14E72680#C3FFFFFFFFFFFFFF",
        &["14E68026#C3FFFFFFFF030201"],
    ),
    Step::Line(
        "(1.000000) can0 14E72680#C7FFFFFFFFFFFFFF",
        &["14E68026#C709010FF0002C01"],
    ),
];

// A profile of other values than the standard one.
fn narrow() -> Profile {
    Profile {
        memory: 65_536,
        soft_key_width: 48,
        soft_key_height: 60,
        virtual_soft_keys: 10,
        physical_soft_keys: 8,
        small_fonts: 3,
        large_fonts: 2,
        font_styles: 1,
        boot_time: 9,
        graphic_type: 1,
        hardware: 15,
        width: 240,
        height: 300,
    }
}

fn expect_line(
    rt: &(impl Abort + AllocGlobal),
    terminal: &mut Terminal,
    text: &str,
    sent: &[&str],
) -> Result<(), Fail> {
    let mut outputs = Vec::new(rt.alloc());
    terminal.step(&input_of(text.as_bytes())?, &mut outputs)?;
    expect_sent(rt, &outputs, sent);
    Ok(())
}

fn expect_tick(
    rt: &(impl Abort + AllocGlobal),
    terminal: &mut Terminal,
    time: u64,
    sent: &[&str],
) -> Result<(), Fail> {
    let mut outputs = Vec::new(rt.alloc());
    terminal.tick(time, &mut outputs)?;
    expect_sent(rt, &outputs, sent);
    Ok(())
}

fn expect_steps(
    rt: &(impl Abort + AllocGlobal),
    terminal: &mut Terminal,
    steps: &[Step],
) -> Result<(), Fail> {
    for &step in steps {
        match step {
            Step::Line(text, sent) => expect_line(rt, terminal, text, sent)?,
            Step::Tick(time, sent) => expect_tick(rt, terminal, time, sent)?,
            Step::Due(wanted) => assert_eq!(rt; terminal.next_deadline(), wanted),
            Step::Lost(wanted) => assert_eq!(rt; terminal.is_lost(), wanted),
            Step::Status(wanted) => expect_frame(rt, &terminal.status(), wanted),
        }
    }
    Ok(())
}

#[test]
fn ticks_are_due_at_deadlines(rt: HostRuntime) -> Result<(), Fail> {
    let mut idle = terminal(&rt, Profile::standard());
    expect_steps(&rt, &mut idle, &IDLE)?;
    for steps in [&SILENT[..], &HEARD, &SESSION, &LATE, &LOST] {
        let mut terminal = preloaded(&rt, POOL)?;
        expect_steps(&rt, &mut terminal, steps)?;
    }
    Ok(())
}

#[test]
fn a_terminal_has_its_profile_and_its_claim(rt: HostRuntime) -> Result<(), Fail> {
    let mut terminal = terminal(&rt, narrow());
    assert!(rt; terminal.own() == OWN && *terminal.profile() == narrow());
    expect_frame(&rt, &terminal.claim(), CLAIM);
    expect_steps(&rt, &mut terminal, &TECHNICAL)?;
    let text = format!(in rt.alloc(); "{}", RunFault { at: 2 })?;
    assert_eq!(rt; text.as_str(), "the memory for input 2 was refused");
    Ok(())
}
