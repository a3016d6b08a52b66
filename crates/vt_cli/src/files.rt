//! The files of the system, and its standard input.

ghost use Rattle.std.specs.Prelude.{◌≡◌, ℕ, List, Option, Some, None, IfOk, IfSome};

use std::fs::{self, File};
use std::io::{self, Error, ErrorKind, Read, Stdin, Write};

/// The end of the name of a file that is being written.
const PART: &str = ".segyolant-part";

/// The end of the name of a log.
const LOG: &str = ".log";

/// A program that reads and writes files, by its name.
pub trait Program {
    /// The name with which its messages about files begin.
    fn name(&self) -> &'static str;
}

/// Opens files by their paths.
pub trait Open: Program {
    type Reader: Read + Drop;

    // The bytes of the file under a path, where they are known.
    ghost file: { Self → List ℕ → Option (List ℕ) } = { λ _ _. None };

    fn open(&mut self, path: &str) -> io::Result<Self::Reader>
        ensures bytes { IfOk result (λ reader. IfSome (file self.old path.now) (λ bytes. Self.Reader.remaining reader ≡ Some bytes)) }
        ensures stay { file self.new ≡ file self.old };

    /// The number of bytes of a file that gives the same ones each time it is opened. `None` for any other, such as the standard input, a
    /// pipe or a device, and for one that is not there.
    fn size(&mut self, path: &str) -> Option<u64>;
}

/// Writes files by their paths.
pub trait Save: Program {
    /// Writes a new file and then moves it to the path, so that an error leaves what is there. A symbolic link at the path is replaced,
    /// not followed; a device or a pipe is not replaced, but receives the bytes. Returns what was replaced.
    fn save(&mut self, path: &str, bytes: &[u8]) -> io::Result<Replaced>;

    /// How many files were replaced so far.
    fn replaced(&self) -> u64;

    /// Writes into the file at the path, or the one that a symbolic link there names. What was in it is gone, also after an error.
    fn overwrite(&mut self, path: &str, bytes: &[u8]) -> io::Result<()>;

    /// Makes a folder, unless it is there.
    fn make_folder(&mut self, path: &str) -> io::Result<()>;
}

/// Lists the logs in folders.
pub trait List: Program {
    /// The paths of the files in a folder whose names end in `.log`, in the order of the bytes of their names. `None` if the path is no
    /// folder.
    fn logs_in(&mut self, path: &str) -> io::Result<Option<Vec<String>>>;
}

/// What a saved file replaced.
#[derive(Clone, Copy, PartialEq, Eq)]
pub enum Replaced {
    /// Nothing.
    Nothing,
    /// A file.
    File,
    /// A symbolic link. What it names is unchanged.
    Link,
}

/// The files of the system. The path `-` is the standard input.
#[derive(Drop)]
pub struct Files<'a> {
    rt: &'a HostRuntime,
    program: &'static str,
    replaced: u64,
}

/// An open file, or the standard input.
#[derive(Drop)]
pub enum Opened {
    /// A file.
    File(File),
    /// The standard input.
    Input(Stdin),
}

impl<'a> Files<'a> {
    /// Returns the files of the system, by its runtime, for a program of this name.
    pub fn new(rt: &'a HostRuntime, program: &'static str) -> Files<'a>
        ensures rt { result.rt ≡ rt.entry }
    {
        Files {
            rt,
            program,
            replaced: 0,
        }
    }

    /// Whether a path is that of a folder, or of a symbolic link to one.
    fn is_folder(&self, path: &str) -> bool {
        match fs::metadata(self.rt, path) {
            Ok(found) => found.is_dir(),
            Err(_) => false,
        }
    }

    /// Makes a file that is not there, with these bytes.
    fn create(&self, path: &str, bytes: &[u8]) -> io::Result<()> {
        File::create_new(self.rt, path)?.write_all(bytes)
    }
}

impl Read for Opened {
    fn read(&mut self, buf: &mut [u8]) -> io::Result<usize> {
        match self {
            Opened::File(file) => file.read(buf),
            Opened::Input(input) => input.read(buf),
        }
    }
}

impl Program for Files<'_> {
    fn name(&self) -> &'static str {
        self.program
    }
}

impl Open for Files<'_> {
    type Reader = Opened;

    // The system opens a directory but does not read it, so a directory is refused here.
    fn open(&mut self, path: &str) -> io::Result<Opened> {
        if path == "-" {
            return Ok(Opened::Input(self.rt.stdin()));
        }
        let file = fs::open(self.rt, path)?;
        if file.metadata()?.is_dir() {
            return Err(Error::from(ErrorKind::IsADirectory));
        }
        Ok(Opened::File(file))
    }

    fn size(&mut self, path: &str) -> Option<u64> {
        let found = fs::metadata(self.rt, path).ok()?;
        (path != "-" && found.is_file()).then_some(found.len())
    }
}

impl List for Files<'_> {
    fn logs_in(&mut self, path: &str) -> io::Result<Option<Vec<String>>> {
        if path == "-" || !self.is_folder(path) {
            return Ok(None);
        }
        let alloc = self.rt.alloc();
        let mut logs = Vec::new(alloc);
        for entry in fs::read_dir(self.rt, path)? {
            let entry = entry?;
            let path = entry.path().as_str();
            if path.ends_with(LOG) && !self.is_folder(path) {
                logs.push(String::from_str(alloc, path)?)?;
            }
        }
        logs.sort()?;
        Ok(Some(logs))
    }
}

impl Save for Files<'_> {
    fn save(&mut self, path: &str, bytes: &[u8]) -> io::Result<Replaced> {
        let replaced = match fs::symlink_metadata(self.rt, path) {
            Ok(found) if found.is_symlink() => Replaced::Link,
            Ok(found) if found.is_file() => Replaced::File,
            Ok(found) if found.is_dir() => return Err(Error::from(ErrorKind::IsADirectory)),
            // A device or a pipe takes the bytes itself.
            Ok(_) => {
                fs::write(self.rt, path, bytes)?;
                return Ok(Replaced::Nothing);
            }
            Err(error) if error.kind() == ErrorKind::NotFound => Replaced::Nothing,
            Err(error) => return Err(error),
        };
        let beside = format!(in self.rt.alloc(); "{path}{PART}")?;
        // One that a run left which was ended.
        let _ = fs::remove_file(self.rt, &beside);
        let mut saved = self.create(&beside, bytes);
        if saved.is_ok() {
            saved = fs::rename(self.rt, &beside, path);
        }
        if let Err(error) = saved {
            let _ = fs::remove_file(self.rt, &beside);
            return Err(error);
        }
        if replaced != Replaced::Nothing {
            self.replaced = self.replaced.saturating_add(1);
        }
        Ok(replaced)
    }

    fn replaced(&self) -> u64 {
        self.replaced
    }

    fn overwrite(&mut self, path: &str, bytes: &[u8]) -> io::Result<()> {
        fs::write(self.rt, path, bytes)
    }

    fn make_folder(&mut self, path: &str) -> io::Result<()> {
        match fs::metadata(self.rt, path) {
            Ok(found) if found.is_dir() => Ok(()),
            Ok(_) => Err(Error::from(ErrorKind::NotADirectory)),
            Err(error) if error.kind() == ErrorKind::NotFound => fs::create_dir(self.rt, path),
            Err(error) => Err(error),
        }
    }
}
