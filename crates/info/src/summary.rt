// An accepted setting in words, and the words that its frame needs.
use registers::record::Registers;
use registers::setting::Setting;
use registers::units::{Pixels, Rasters};
use sheets::sheet::Sheet;
use std::{fmt, io};

const CURSOR_WIDTH: Pixels = Pixels(32);

// A rectangle of the frame, and where it begins.
#[derive(Clone, Copy)]
struct Area {
    width: Pixels,
    height: Rasters,
    left: Pixels,
    top: Rasters,
}

impl fmt::Display for Area {
    fn fmt<W: fmt::Write>(&self, f: &mut fmt::Formatter<W>) -> fmt::Result {
        let Area {
            width,
            height,
            left,
            top,
        } = *self;
        write!(f, "{} x {} from ({}, {})", width.0, height.0, left.0, top.0)
    }
}

// A part of the picture by its name: its area, none where it is off.
#[derive(Clone, Copy)]
struct Part<'a>(&'a str, Option<Area>);

impl fmt::Display for Part<'_> {
    fn fmt<W: fmt::Write>(&self, f: &mut fmt::Formatter<W>) -> fmt::Result {
        let Part(name, area) = *self;
        match area {
            Some(area) => write!(f, "{name} {area}"),
            None => write!(f, "{name} off"),
        }
    }
}

fn display(s: Setting) -> Part<'static> {
    let area = Area {
        width: s.de.width_from(s.ds),
        height: s.vde.height_from(s.vds),
        left: s.ds,
        top: s.vds,
    };
    Part("display", s.display_on().then_some(area))
}

fn border(s: Setting) -> Part<'static> {
    let area = Area {
        width: s.be.width_from(s.bs),
        height: s.vbe.height_from(s.vbs),
        left: s.bs,
        top: s.vbs,
    };
    Part("border", s.border_on().then_some(area))
}

fn cursor(s: Setting) -> Part<'static> {
    let area = Area {
        width: CURSOR_WIDTH,
        height: s.vce.height_from(s.vcs),
        left: s.cx,
        top: s.vcs,
    };
    Part("cursor", s.cursor.then_some(area))
}

// The words of a list that a frame needs, and those that the plate has.
#[derive(Clone, Copy)]
struct Words {
    needed: u64,
    present: usize,
}

impl fmt::Display for Words {
    fn fmt<W: fmt::Write>(&self, f: &mut fmt::Formatter<W>) -> fmt::Result {
        write!(f, "{} needed, {} present", self.needed, self.present)
    }
}

// The two lines.
pub fn print_setting(
    rt: &impl Print,
    g: &Registers,
    s: Setting,
    sheet: Sheet<'_>,
) -> io::Result<()> {
    let depth = s.depth;
    let entries = g.entries_in_use();
    let (display, border, cursor) = (display(s), border(s), cursor(s));
    println!(rt;
        "setting: {} x {} cells, depth {depth}, {entries} palette entries in use, {display}, {border}, {cursor}",
        s.n.0, s.v.0
    )?;
    let video = Words {
        needed: s.video_words(),
        present: sheet.video.len(),
    };
    let cursor = Words {
        needed: s.cursor_words(),
        present: sheet.cursor.len(),
    };
    println!(rt; "words: video {video}; cursor {cursor}")
}
