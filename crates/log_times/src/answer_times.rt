//! How long the answers of terminals take.

use crate::labels::FunctionLabel;
use crate::message::{Direction, Message};
use crate::open_requests::OpenRequests;
use crate::subject::{Subject, answered_by, asked_by};
use crate::summary::{TimeSummary, summary_of};
use log_traffic::Milliseconds;
use std::alloc::{AllocError, Global};
use std::collections::BTreeMap;
use std::fmt;
use std::io::{self, Write};
use vt_cli::{Cell, put_line};
use vt_frames_text::{Count, function_name};

/// What is known of the requests with a function.
#[derive(Drop)]
struct Asked {
    /// The microseconds from each answered request to its answer.
    times: Vec<u32>,
    /// How many requests were not answered in time.
    unanswered: u64,
}

/// The requests to terminals without an answer so far, and the answer times of the others. The memory grows with the number of answers, by
/// four bytes for each, and with that of open requests and of what they ask.
#[derive(Drop)]
pub(crate) struct AnswerTimes {
    alloc: Global,
    open: BTreeMap<Subject, OpenRequests>,
    asked: BTreeMap<u8, Asked>,
}

impl AnswerTimes {
    /// No requests. Does not allocate.
    pub(crate) fn new(alloc: Global) -> AnswerTimes {
        AnswerTimes {
            alloc,
            open: BTreeMap::new(alloc),
            asked: BTreeMap::new(alloc),
        }
    }

    /// Takes a message at a time in microseconds, which is no earlier than that of the message before.
    pub(crate) fn take(&mut self, time: u64, message: Message<'_>) -> Result<(), AllocError> {
        match message.direction {
            Direction::ToTerminal => match asked_by(message) {
                Some(subject) => self.ask(time, subject),
                None => Ok(()),
            },
            Direction::OfTerminal => self.answer(time, answered_by(message)),
        }
    }

    /// Opens a request.
    fn ask(&mut self, time: u64, subject: Subject) -> Result<(), AllocError> {
        let requests = self
            .open
            .entry(subject)?
            .or_insert(OpenRequests::new(self.alloc));
        let overdue = requests.expire(time);
        requests.ask(time)?;
        self.asked_with(subject.function)?.add_unanswered(overdue);
        Ok(())
    }

    /// Closes the oldest open request about a subject, if there is one.
    fn answer(&mut self, time: u64, subject: Subject) -> Result<(), AllocError> {
        let Some(requests) = self.open.get_mut(&subject) else {
            return Ok(());
        };
        let overdue = requests.expire(time);
        let answered = requests.answer(time);
        let asked = self.asked_with(subject.function)?;
        asked.add_unanswered(overdue);
        if let Some(wait) = answered {
            asked.times.push(wait)?;
        }
        Ok(())
    }

    /// What is known of the requests with a function.
    fn asked_with(&mut self, function: u8) -> Result<&mut Asked, AllocError> {
        let asked = self.asked.entry(function)?.or_insert(Asked {
            times: Vec::new(self.alloc),
            unanswered: 0,
        });
        Ok(asked)
    }

    /// The answer times of each function, by rising functions, in a log that ends at a time. Functions of which no request was answered or
    /// overdue are left out.
    pub(crate) fn report(&self, end: u64) -> Result<Vec<FunctionTimes>, AllocError> {
        let mut late = [0_u64; 256];
        for (subject, requests) in self.open.iter() {
            let place = usize::from(subject.function);
            late[place] = late[place].saturating_add(requests.overdue(end));
        }
        let mut functions = Vec::new(self.alloc);
        for (function, asked) in self.asked.iter() {
            let unanswered = asked
                .unanswered
                .saturating_add(late[usize::from(*function)]);
            let times = summary_of(self.alloc, asked.times.as_slice())?;
            if unanswered > 0 || times.is_some() {
                functions.push(FunctionTimes {
                    function: *function,
                    times,
                    unanswered,
                })?;
            }
        }
        Ok(functions)
    }
}

impl Asked {
    /// Counts requests that were not answered in time.
    fn add_unanswered(&mut self, requests: u64) {
        self.unanswered = self.unanswered.saturating_add(requests);
    }
}

/// How long a terminal's answers to a function take. Its `Display` writes its line.
#[derive(Clone, Copy)]
pub struct FunctionTimes {
    /// The function.
    pub function: u8,
    /// The answer times, in microseconds. `None` if there is no answer.
    pub times: Option<TimeSummary>,
    /// How many requests were not answered in time.
    pub unanswered: u64,
}

impl fmt::Display for FunctionTimes {
    fn fmt<W: fmt::Write>(&self, f: &mut fmt::Formatter<W>) -> fmt::Result {
        write!(f, "  {}: ", FunctionLabel(self.function))?;
        if let Some(times) = self.times {
            let answers = Count(times.count, "answer");
            let least = Milliseconds(u64::from(times.least));
            let median = Milliseconds(u64::from(times.median));
            let greatest = Milliseconds(u64::from(times.greatest));
            write!(
                f,
                "{answers}, least {least}, median {median}, greatest {greatest}"
            )?;
        }
        if self.times.is_some() && self.unanswered > 0 {
            f.write_str("; ")?;
        }
        if self.unanswered > 0 {
            write!(f, "{} without an answer", Count(self.unanswered, "request"))?;
        }
        writeln!(f)
    }
}

impl FunctionTimes {
    /// Writes them as a line of JSON of this `"kind"`.
    pub(crate) fn put_json<W: Write>(
        &self,
        alloc: Global,
        kind: &str,
        out: &mut W,
    ) -> io::Result<()> {
        let found = self.times;
        let answers = found.map_or(0, |found| found.count);
        let greatest = found.map(|found| u64::from(found.greatest));
        let least = found.map(|found| u64::from(found.least));
        let median = found.map(|found| u64::from(found.median));
        let members = [
            ("answers", Cell::Number(answers)),
            ("function", Cell::Hex(self.function)),
            ("greatest", Cell::number_if(greatest)),
            ("kind", Cell::Text(kind)),
            ("least", Cell::number_if(least)),
            ("median", Cell::number_if(median)),
            ("name", Cell::text_if(function_name(self.function))),
            ("unanswered", Cell::Number(self.unanswered)),
        ];
        put_line(alloc, &members, out)
    }
}
