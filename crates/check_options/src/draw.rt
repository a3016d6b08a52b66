//! The options of `draw`.

use crate::options::area;
use crate::wrong_option::WrongOption;
use check_needs::{Area, Sizes, TERMINAL_SIZES};
use clap::ArgMatches;
use std::alloc::Global;
use vt_can::assigned::TERMINAL_ADDRESS;
use vt_cli::{StartSet, UsageError, all_of};
use vt_objects::ObjectId;

/// The options of `draw`.
#[derive(Drop)]
pub struct DrawOptions<'a> {
    /// Where the objects come from.
    pub origin: Origin<'a>,
    /// The files of names.
    pub names: Vec<&'a str>,
    /// The areas of masks and keys. The number of keys is that of this terminal.
    pub sizes: Sizes,
    /// What is drawn, and where.
    pub drawing: Drawing<'a>,
}

/// Where the objects come from.
#[derive(Clone, Copy, PartialEq, Eq)]
pub enum Origin<'a> {
    /// The file of a pool.
    Pool(&'a str),
    /// The working set that a terminal shows at the end of a log.
    State {
        /// The file of the log.
        log: &'a str,
        /// The working set that is there from the start.
        set: Option<StartSet<'a>>,
    },
}

/// What is drawn, and where.
#[derive(Clone, Copy, PartialEq, Eq)]
pub enum Drawing<'a> {
    /// A picture of one mask.
    Picture {
        /// The mask, or `None` for the active one.
        mask: Option<ObjectId>,
        /// The file of the picture, or `None` for the standard output.
        file: Option<&'a str>,
    },
    /// A folder with a picture of each mask, and a page of them.
    Gallery {
        /// The one mask that is drawn, or `None` for all.
        mask: Option<ObjectId>,
        /// The folder.
        folder: &'a str,
    },
}

pub(crate) fn draw_options<'a>(
    alloc: Global,
    matches: &ArgMatches<'a>,
) -> Result<DrawOptions<'a>, UsageError<WrongOption<'a>>> {
    let Sizes { mask, key, keys } = TERMINAL_SIZES;
    let mask = area_of(matches, "size", mask).map_err(WrongOption::Size)?;
    let key = area_of(matches, "key-size", key).map_err(WrongOption::KeySize)?;
    let origin = origin_of(
        matches.get_str("POOL"),
        matches.get_str("state"),
        matches.get_str("owner"),
    )?;
    // The borrow checker does not cover `?` to another error at a value that holds an ID.
    let drawing = match drawing_of(matches.get_str("mask"), matches.get_str("out")) {
        Ok(drawing) => drawing,
        Err(option) => return Err(UsageError::Wrong(option)),
    };
    Ok(DrawOptions {
        origin,
        names: all_of(alloc, matches, "names")?,
        sizes: Sizes { mask, key, keys },
        drawing,
    })
}

/// The origin that the pool, the log and the value of `--owner` give.
fn origin_of<'a>(
    pool: Option<&'a str>,
    log: Option<&'a str>,
    owner: Option<&'a str>,
) -> Result<Origin<'a>, WrongOption<'a>> {
    match (pool, log, owner) {
        (Some(pool), Some(log), owner) => {
            let set = StartSet::new(pool, owner, TERMINAL_ADDRESS).map_err(WrongOption::Owner)?;
            Ok(Origin::State {
                log,
                set: Some(set),
            })
        }
        (_, _, Some(_)) => Err(WrongOption::OwnerAlone),
        (None, Some(log), None) => Ok(Origin::State { log, set: None }),
        (Some(pool), None, None) => Ok(Origin::Pool(pool)),
        (None, None, None) => Err(WrongOption::NoPool),
    }
}

/// The area that an option gives, or else the default. The error is the value of the option, if it is no area.
pub(crate) fn area_of<'a>(
    matches: &ArgMatches<'a>,
    option: &str,
    usual: Area,
) -> Result<Area, &'a str> {
    match matches.get_str(option) {
        None => Ok(usual),
        Some(value) => area(value).ok_or(value),
    }
}

/// The drawing that the values of `--mask` and `--out` give. A path that ends in `.svg` is a file, `-` is the standard output, and every
/// other path a folder.
fn drawing_of<'a>(
    word: Option<&'a str>,
    out: Option<&'a str>,
) -> Result<Drawing<'a>, WrongOption<'a>> {
    let mask = match word {
        None | Some("all") => None,
        Some(word) => Some(mask_id(word)?),
    };
    match (out, word) {
        (Some(path), _) if is_folder(path) => Ok(Drawing::Gallery { mask, folder: path }),
        (_, Some("all")) => Err(WrongOption::AllMasks),
        (None | Some("-"), _) => Ok(Drawing::Picture { mask, file: None }),
        (file, _) => Ok(Drawing::Picture { mask, file }),
    }
}

/// Whether a path is that of a folder.
fn is_folder(path: &str) -> bool {
    path != "-" && !path.ends_with(".svg")
}

/// The ID of a mask.
fn mask_id<'a>(word: &'a str) -> Result<ObjectId, WrongOption<'a>> {
    match word.parse::<u16>() {
        Ok(id) => Ok(ObjectId::from_raw(id)),
        Err(_) => Err(WrongOption::Mask(word)),
    }
}
