// The text that the table lister reads: SCOPE's lines of options and points, and the line of a point's energy. Proved: a text is accepted
// with these values if and only if it is the writing of these values, and every other text is refused and leaves the columns as they
// were. Nothing is asked of the caller. Assumed: nothing.
#![tactic(auto)]

ghost use Rattle.std.specs.Prelude.{◌≡◌, ◌<◌, ◌≤◌, length, drop, IfSome};
ghost use Rattle.lister_text.specs.laws.Scan.{came_to, more_text, number_of, line_of, byte_at};
ghost use Rattle.lister_text.specs.laws.Form.{head_of_text, point_of, points_ok, filled_form};
ghost use Rattle.lister_text.specs.Values.{coord_of, options_of};
ghost use Rattle.lister_text.specs.Text.{Parsing};
ghost use Rattle.lister_text.specs.Lent.{held_lamps};

use build_tables::Options;
use range::{CoordinateSystem, DataRange};
use refusals::Refusal;

// A place in the text.
#[derive(Clone, Copy)]
pub struct Cursor {
    pub at: usize,
}

// The numbers of the first seven lines, and the place past these.
#[derive(Clone, Copy)]
pub struct Head {
    pub min_zoom: u8,
    pub max_zoom: u8,
    pub min_points: u8,
    pub radius: u32,
    pub extent: u32,
    pub node_size: u32,
    pub count: u32,
    pub next: Cursor,
}

// The numbers of a point's lines: where it is, in 65,536ths, and its energy in watt-hours.
#[derive(Clone, Copy)]
pub struct LampText {
    pub x: u32,
    pub y: u32,
    pub wh: u32,
}

// The columns that points are read into.
#[derive(Clone, Copy)]
pub struct LampColumns {
    pub xs: [f64; 1152],
    pub ys: [f64; 1152],
    pub energies: [u64; 1152],
}

// A text, and the place in it that is read next.
#[derive(Clone, Copy)]
struct Reader<'a> {
    text: &'a [u8],
    at: usize,
    ghost within: { at ≤ length text.now },
}

// What each method reads it steps past. Where it answers `None` the place may have moved.
impl Reader<'_> {
    // The next byte.
    fn byte(&mut self) -> Option<u8>
        ensures text { self.new.text ≡ self.old.text }
        ensures read { came_to result self.new.at ≡ byte_at self.old.at (drop self.old.at self.old.text.now) }
    {
        let c = *self.text.get(self.at)?;
        self.at += 1;
        Some(c)
    }

    // The rest of a number whose first digit is read, up to its line's end: no digit after a 0, at most seven digits.
    fn more(&mut self, first: u32) -> Option<u32>
        requires { first < 10 }
        ensures text { self.new.text ≡ self.old.text }
        ensures read { came_to result self.new.at ≡ more_text first self.old.at (drop self.old.at self.old.text.now) }
    {
        let mut v = first;
        loop {
            let c = self.byte()?;
            if c == b'\n' {
                return Some(v);
            }
            if !c.is_ascii_digit() {
                return None;
            }
            if v < 1 {
                return None;
            }
            if 999999 < v {
                return None;
            }
            v = v * 10 + (c - b'0') as u32;
        }
    }

    // A number and its line's end.
    fn number(&mut self) -> Option<u32>
        ensures text { self.new.text ≡ self.old.text }
        ensures read { came_to result self.new.at ≡ number_of self.old.at (drop self.old.at self.old.text.now) }
    {
        let c = self.byte()?;
        if !c.is_ascii_digit() {
            return None;
        }
        self.more((c - b'0') as u32)
    }

    // The line key=value, its value at most max.
    fn line(&mut self, key: &[u8], max: u32) -> Option<u32>
        ensures text { self.new.text ≡ self.old.text }
        ensures read { came_to result self.new.at ≡ line_of self.old.text.now self.old.at key.now max }
        ensures most { IfSome result (λ v. v ≤ max) }
    {
        if !self.text[self.at..].starts_with(key) {
            return None;
        }
        self.at += key.len();
        let v = self.number()?;
        if max < v {
            return None;
        }
        Some(v)
    }

    // The first seven lines, at the start of the text.
    #[tactic(auto, unfolding(crate::specs::laws::Form::head_of_text))]
    fn head(&mut self) -> Option<Head>
        requires { self.old.at ≡ 0 }
        ensures text { self.new.text ≡ self.old.text }
        ensures read { result ≡ head_of_text self.old.text.now }
        ensures next { IfSome result (λ h. (h.count ≤ 1152) × (self.new.at ≡ h.next.at)) }
    {
        let min_zoom = self.line(b"min_zoom=", 255)?;
        let max_zoom = self.line(b"max_zoom=", 255)?;
        let min_points = self.line(b"min_points=", 255)?;
        let radius = self.line(b"radius=", 9999999)?;
        let extent = self.line(b"extent=", 9999999)?;
        let node_size = self.line(b"node_size=", 9999999)?;
        let count = self.line(b"count=", 1152)?;
        Some(Head {
            min_zoom: min_zoom as u8,
            max_zoom: max_zoom as u8,
            min_points: min_points as u8,
            radius,
            extent,
            node_size,
            count,
            next: Cursor { at: self.at },
        })
    }

    // The lines of a point.
    #[tactic(auto, unfolding(crate::specs::laws::Form::point_of))]
    fn point(&mut self) -> Option<LampText>
        ensures text { self.new.text ≡ self.old.text }
        ensures read { came_to result self.new.at ≡ point_of self.old.text.now self.old.at }
    {
        let x = self.line(b"x=", 9999999)?;
        let y = self.line(b"y=", 9999999)?;
        let wh = self.line(b"wh=", 9999999)?;
        Some(LampText { x, y, wh })
    }

    // Whether n points stand here, and then nothing. They are read twice, here and in `fill`: a text that is refused writes no column.
    fn points_ok(&mut self, n: u32) -> bool
        ensures { result ≡ points_ok n self.old.text.now self.old.at }
    {
        for _ in 0..n {
            let Some(_) = self.point() else {
                return false;
            };
        }
        self.at == self.text.len()
    }

    // Writes the n points that stand here to the columns.
    fn fill(&mut self, n: u32, lamps: &mut LampColumns)
        requires { n ≤ 1152 }
        ensures { held_lamps lamps.new ≡ filled_form n self.old.text.now self.old.at 0 (held_lamps lamps.old) }
    {
        for i in 0..n as usize {
            let Some(p) = self.point() else {
                return;
            };
            lamps.xs[i] = coordinate(p.x);
            lamps.ys[i] = coordinate(p.y);
            lamps.energies[i] = p.wh as u64;
        }
    }
}

// A coordinate: so many 65,536ths.
pub fn coordinate(k: u32) -> f64
    ensures { result ≡ coord_of k }
{
    k as f64 / 65536.0
}

// Reads a text: its numbers, and its points into the columns; or refuses it, and writes nothing.
pub fn parse(s: &[u8], lamps: &mut LampColumns) -> Result<Head, Refusal>
    ensures { Parsing s.now (held_lamps lamps.old) result (held_lamps lamps.new) }
{
    if 65536 < s.len() {
        return Err(Refusal::Text);
    }
    let mut reader = Reader { text: s, at: 0 };
    let h = reader.head().ok_or(Refusal::Text)?;
    let mut ahead = reader;
    if !ahead.points_ok(h.count) {
        return Err(Refusal::Text);
    }
    reader.fill(h.count, lamps);
    Ok(h)
}

// The options that a text asks for: Cartesian, with offset 0 and scale 1.
pub fn options(h: Head) -> Options
    ensures { result ≡ options_of h }
{
    Options {
        min_zoom: h.min_zoom,
        max_zoom: h.max_zoom,
        min_points: h.min_points,
        radius: h.radius as f64,
        extent: h.extent as f64,
        node_size: h.node_size as usize,
        coordinate_system: CoordinateSystem::Cartesian {
            range: DataRange {
                min_x: 0.0,
                min_y: 0.0,
                max_x: 1.0,
                max_y: 1.0,
                offset: Some(0.0),
                scale: Some(1.0),
            },
        },
        longitude_strips_only: false,
    }
}
