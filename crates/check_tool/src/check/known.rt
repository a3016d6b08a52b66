//! Findings that are known from an earlier check.

use check_text::ItemLine;
use serde_json::Value;
use std::alloc::{AllocError, Global};
use std::collections::BTreeMap;
use std::io::{self, Write};
use vt_cli::{Open, read_file};

/// Findings that are known from an earlier check, each as often as it was found. A finding is the same if it has the same code and the same
/// sentence, wherever its bytes are.
#[derive(Drop)]
pub(crate) struct Known {
    alloc: Global,
    left: BTreeMap<String, u64>,
}

impl Known {
    /// None. Does not allocate.
    pub(crate) fn new(alloc: Global) -> Known {
        Known {
            alloc,
            left: BTreeMap::new(alloc),
        }
    }

    /// Those of the lines of a file, which `check --format json` has written. `None` if the file cannot be read, or has another line: then
    /// `errors` receives the reason.
    pub(crate) fn read<F: Open, E: Write>(
        alloc: Global,
        path: &str,
        files: &mut F,
        errors: &mut E,
    ) -> io::Result<Option<Known>> {
        let Some(bytes) = read_file(alloc, path, files, errors)? else {
            return Ok(None);
        };
        let mut known = Known::new(alloc);
        let mut number = 0_usize;
        for line in bytes.split(|byte| *byte == b'\n') {
            number = number.saturating_add(1);
            if !line.is_empty() && !known.add(line)? {
                let _ = writeln!(
                    errors,
                    "{}: {path}: line {number} is no line of segyolant check --format json",
                    files.name()
                );
                return Ok(None);
            }
        }
        Ok(Some(known))
    }

    /// Adds the finding of a line, if it has one. Returns whether the line has a finding or counts.
    fn add(&mut self, line: &[u8]) -> Result<bool, AllocError> {
        let value = match Value::from_slice(self.alloc, line) {
            Ok(value) => value,
            Err(error) if error.is_memory() => return Err(AllocError),
            Err(_) => return Ok(false),
        };
        let code = value.get("code").and_then(Value::as_str);
        let sentence = value.get("message").and_then(Value::as_str);
        let (Some(code), Some(sentence)) = (code, sentence) else {
            return Ok(value.get("errors").is_some());
        };
        let finding = format!(in self.alloc; "{code} {sentence}")?;
        let count = self.left.get(finding.as_str()).copied().unwrap_or(0);
        self.left.insert(finding, count.saturating_add(1))?;
        Ok(true)
    }

    /// Whether there are none.
    pub(crate) fn is_empty(&self) -> bool {
        self.left.is_empty()
    }

    /// Removes a finding once. Returns whether it is known.
    pub(crate) fn take(&mut self, message: &ItemLine<'_>) -> Result<bool, AllocError> {
        let code = message.code.code;
        let finding = format!(in self.alloc; "{code} {}", message.sentence)?;
        match self.left.get_mut(finding.as_str()) {
            Some(count) if *count > 0 => {
                *count = count.saturating_sub(1);
                Ok(true)
            }
            Some(_) | None => Ok(false),
        }
    }
}
