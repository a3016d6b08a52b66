//! The subcommand `report`.

use crate::findings::put_findings;
use crate::objects::put_objects;
use crate::page::{SCRIPTS, body, head, style};
use crate::pictures::Album;
use crate::room::PictureRoom;
use crate::rules::put_rules;
use check_needs::Sizes;
use check_options::ReportOptions;
use check_reports::{put_costs, put_needs};
use check_text::{CheckedPool, Summary};
use page_blocks::{Block, Room, begin_block, end_block};
use std::alloc::Global;
use std::io::{self, Write};
use vt_cli::{InspectedFile, JsonLine, Open, Status, VERSION, read_names};

/// The most masks in the page.
const MOST_MASKS: usize = 200;

/// The most keys in the page.
const MOST_KEYS: usize = 2000;

/// The most bytes of the pictures of masks, and of those of keys.
const MOST_BYTES: usize = 50_000_000;

/// The most objects in the page.
const MOST_OBJECTS: usize = 50_000;

/// The most lines of findings in the page. The first has their counts.
const MOST_FINDINGS: u64 = 20_001;

/// The most events with their costs in the page.
const MOST_EVENTS: u64 = 5000;

/// Writes the page of a pool. `errors` receives a sentence for each file that cannot be read, and for what the page leaves out. An error is
/// returned if `out` cannot be written or memory is refused.
pub fn run_report<F: Open, W: Write, E: Write>(
    alloc: Global,
    options: &ReportOptions<'_>,
    files: &mut F,
    out: &mut W,
    errors: &mut E,
) -> io::Result<Status> {
    let Some(names) = read_names(alloc, options.names.as_slice(), files, errors)? else {
        return Ok(Status::NotJudged);
    };
    let Some(pool) = InspectedFile::read(alloc, options.pool, files, errors)? else {
        return Ok(Status::NotJudged);
    };
    let source = pool.named(&names);
    let page = PoolPage {
        alloc,
        source: &source,
        sizes: options.sizes,
    };
    write!(
        out,
        "{}<style>\n{}</style>\n{}",
        head::TEXT,
        style::TEXT,
        body::TEXT
    )?;
    let status = page.put_blocks(out, errors)?;
    out.write_all(b"<script>\n")?;
    for part in SCRIPTS {
        out.write_all(part.as_bytes())?;
    }
    out.write_all(b"</script>\n</body>\n</html>\n")?;
    Ok(status)
}

/// How much is left out of the page.
#[derive(Clone, Copy, PartialEq, Eq)]
struct LeftOut {
    findings: u64,
    masks: u64,
    keys: u64,
    objects: u64,
    events: u64,
}

/// The page of a pool.
#[derive(Clone, Copy, Drop)]
struct PoolPage<'a> {
    alloc: Global,
    source: &'a CheckedPool<'a>,
    sizes: Sizes,
}

impl PoolPage<'_> {
    /// Writes the blocks of data. The status is `Found` if the pool has errors.
    fn put_blocks<W: Write, E: Write>(&self, out: &mut W, errors: &mut E) -> io::Result<Status> {
        let (summary, findings) = self.put_findings(out)?;
        begin_block("rules", out)?;
        put_rules(self.alloc, &mut self.block(out, &mut Room::for_all()))?;
        end_block(out)?;
        let objects = self.put_objects(out)?;
        let (masks, keys) = self.put_pictures(out)?;
        let (are_known, events) = self.put_costs(out)?;
        self.put_needs(out)?;
        let left_out = LeftOut {
            findings,
            masks,
            keys,
            objects,
            events,
        };
        self.put_about(&left_out, are_known, out)?;
        self.tell_left_out(&left_out, errors);
        Ok(match summary.errors {
            0 => Status::Clean,
            _ => Status::Found,
        })
    }

    /// A block of data before its first line.
    fn block<'b, W: Write>(&self, out: &'b mut W, room: &'b mut Room) -> Block<'b, W> {
        Block::new(self.alloc, out, room)
    }

    /// Writes the findings. Returns their counts, and how many have no line.
    fn put_findings<W: Write>(&self, out: &mut W) -> io::Result<(Summary<'_>, u64)> {
        begin_block("findings", out)?;
        let mut room = Room::of(MOST_FINDINGS);
        let summary = put_findings(
            self.alloc,
            self.source,
            self.sizes,
            &mut self.block(out, &mut room),
        )?;
        end_block(out)?;
        Ok((summary, room.left_out))
    }

    /// Writes the objects. Returns how many are left out.
    fn put_objects<W: Write>(&self, out: &mut W) -> io::Result<u64> {
        begin_block("objects", out)?;
        let left_out = put_objects(
            self.alloc,
            self.source,
            MOST_OBJECTS,
            &mut self.block(out, &mut Room::for_all()),
        )?;
        end_block(out)?;
        Ok(left_out)
    }

    /// Writes the masks and the keys. Returns how many of each are left out.
    fn put_pictures<W: Write>(&self, out: &mut W) -> io::Result<(u64, u64)> {
        let album = Album {
            alloc: self.alloc,
            source: self.source,
            sizes: self.sizes,
        };
        let mut masks = PictureRoom::of(MOST_MASKS, MOST_BYTES);
        begin_block("masks", out)?;
        album.put_masks(&mut masks, &mut self.block(out, &mut Room::for_all()))?;
        end_block(out)?;
        let mut keys = PictureRoom::of(MOST_KEYS, MOST_BYTES);
        begin_block("keys", out)?;
        album.put_keys(&mut keys, &mut self.block(out, &mut Room::for_all()))?;
        end_block(out)?;
        Ok((masks.left_out, keys.left_out))
    }

    /// Writes the events that cost a step. Returns whether costs are known, and how many events have no line.
    fn put_costs<W: Write>(&self, out: &mut W) -> io::Result<(bool, u64)> {
        begin_block("costs", out)?;
        let mut room = Room::of(MOST_EVENTS);
        let are_known = put_costs(self.alloc, self.source, &mut self.block(out, &mut room))?;
        end_block(out)?;
        Ok((are_known, room.left_out))
    }

    /// Writes what the pool needs.
    fn put_needs<W: Write>(&self, out: &mut W) -> io::Result<()> {
        begin_block("needs", out)?;
        put_needs(
            self.alloc,
            *self.source,
            self.sizes,
            &mut self.block(out, &mut Room::for_all()),
        )?;
        end_block(out)
    }

    /// Writes what the page is about.
    fn put_about<W: Write>(
        &self,
        left_out: &LeftOut,
        are_costs_known: bool,
        out: &mut W,
    ) -> io::Result<()> {
        let Sizes { mask, key, keys } = self.sizes;
        begin_block("about", out)?;
        let mut line = JsonLine::new(self.alloc);
        line.put_number("bytes", self.source.bytes.len() as u64)?;
        line.put_number("costs_known", u64::from(are_costs_known))?;
        line.put_number("events_left_out", left_out.events)?;
        line.put_text("file", self.source.path)?;
        line.put_number("findings_left_out", left_out.findings)?;
        line.put_number("key_height", u64::from(key.height))?;
        line.put_number("key_width", u64::from(key.width))?;
        line.put_number("keys", u64::from(keys))?;
        line.put_number("keys_left_out", left_out.keys)?;
        line.put_number("mask_height", u64::from(mask.height))?;
        line.put_number("mask_width", u64::from(mask.width))?;
        line.put_number("masks_left_out", left_out.masks)?;
        line.put_number("objects_left_out", left_out.objects)?;
        line.put_text("version", VERSION)?;
        line.write(&mut self.block(out, &mut Room::for_all()))?;
        end_block(out)
    }

    /// Writes to `errors` what the page leaves out, if it does.
    fn tell_left_out<E: Write>(&self, left_out: &LeftOut, errors: &mut E) {
        let path = self.source.path;
        let parts = [
            ("masks", left_out.masks),
            ("keys", left_out.keys),
            ("objects", left_out.objects),
            ("findings", left_out.findings),
            ("events", left_out.events),
        ];
        for (what, count) in parts {
            if count > 0 {
                let _ = writeln!(
                    errors,
                    "segyolant: {path}: {count} {what} are left out of the page"
                );
            }
        }
    }
}
