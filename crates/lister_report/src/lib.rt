// The table lister's whole answer to a text: every line of every table of the build, the finest table first, or the refusal.
// Proved: for every text the bytes that SCOPE says, and how many there are. Nothing is asked of the caller. Assumed: nothing.
#![tactic(auto)]

ghost use Rattle.std.specs.Prelude.{◌≡◌, [], ◌∷◌, ◌+◌, ◌*◌, ◌<◌, ◌≤◌, length, get_or};
ghost use Rattle.build_tables.specs.Lent.{held};
ghost use Rattle.build_tables.specs.Columns.{held_at};
ghost use Rattle.build_tables.specs.Rows.{rows};
ghost use Rattle.lister_text.specs.Digits.{decimal_of};
ghost use Rattle.lister_text.specs.Values.{options_of};
ghost use Rattle.lister_text.specs.Text.{front_of};
ghost use Rattle.lister_text.specs.Lent.{held_lamps};
ghost use Rattle.refusals.specs.Refusals.{number_of, carried_of};
ghost use Rattle.lister_report.specs.Hex.{glyph_of, hex_of};
ghost use Rattle.lister_report.specs.Lines.{or_dash, bits_of, place_text, centre_text, marks_text, end_text, line_text, line_room};
ghost use Rattle.lister_report.specs.Lines.{table_text, tables_text, at_text, refusal_text};
ghost use Rattle.lister_report.specs.Report.{loaded_by, build_text, lister_held, lister_columns, lending, Reports};
ghost use Rattle.lister_report.specs.laws.Put.{Put, Puts};
ghost use Rattle.supercluster.specs.laws.Held.{held_by};
ghost use Rattle.lister_report.specs.laws.Held.{Holding};

use build_tables::{Entries, Entry, State, TablesMut};
use lister_text::{Head, LampColumns};
use refusals::Refusal;
use supercluster::Points;

// What `seen` and `parent` are where they are unset, as numbers to print.
const NEVER: usize = build_tables::NEVER as usize;

const UNSET: usize = build_tables::UNSET as usize;

// The columns of a build that the lister has room for: 1,152 entries, and 2,304 index coordinates.
#[derive(Clone, Copy)]
pub struct ListerColumns {
    pub x: [f64; 1152],
    pub y: [f64; 1152],
    pub seen: [u8; 1152],
    pub id: [u32; 1152],
    pub parent: [u32; 1152],
    pub num: [u32; 1152],
    pub energy: [u64; 1152],
    pub ids: [u32; 1152],
    pub coords: [f64; 2304],
    pub near: [u32; 1152],
}

impl ListerColumns {
    // Columns of zeros.
    pub fn new() -> ListerColumns
        ensures { lister_held result ≡ lister_columns }
    {
        ListerColumns {
            x: [0.0; 1152],
            y: [0.0; 1152],
            seen: [0; 1152],
            id: [0; 1152],
            parent: [0; 1152],
            num: [0; 1152],
            energy: [0; 1152],
            ids: [0; 1152],
            coords: [0.0; 2304],
            near: [0; 1152],
        }
    }

    // Those of the entries, to be read.
    fn entries(&self) -> Entries<'_>
        ensures { held result ≡ (lister_held self.now).table }
    {
        Entries {
            x: &self.x,
            y: &self.y,
            seen: &self.seen,
            id: &self.id,
            parent: &self.parent,
            num: &self.num,
            energy: &self.energy,
        }
    }
}

// A hexadecimal digit.
fn glyph(d: u8) -> u8
    requires { d < 16 }
    ensures { result ≡ glyph_of d }
{
    if d < 10 { b'0' + d } else { b'a' + (d - 10) }
}

// The bits of a float. A NaN's are those of the Rust's f64::NAN.
fn bits(x: f64) -> u64
    ensures { result ≡ bits_of x }
{
    if x.is_nan() {
        0x7ff8000000000000
    } else {
        x.to_bits()
    }
}

// What is printed, in a buffer, and the place past it.
#[derive(Drop)]
struct Writer<'a> {
    out: &'a mut [u8],
    at: usize,
}

// Each method writes a text at the place `at`, and goes on past it.
impl Writer<'_> {
    // A byte.
    fn byte(&mut self, b: u8)
        requires { self.old.at < length self.old.out.now }
        ensures { Put self.old self.new (b ∷ []) 1 }
    {
        self.out[self.at] = b;
        self.at += 1;
    }

    // These bytes.
    fn bytes(&mut self, bs: &[u8])
        requires { self.old.at + length bs.now ≤ length self.old.out.now }
        ensures { Put self.old self.new bs.now (length bs.now) }
    {
        for b in bs {
            self.byte(*b);
        }
    }

    // n's decimal digits, at most `left` of them. By hand, as the hexadecimal ones: `write!` answers a Result that cannot be refused here,
    // and what it says of the bytes would have to be tied to `decimal_of` again.
    fn decimal(&mut self, n: usize, left: usize)
        requires { self.old.at + left ≤ length self.old.out.now }
        ensures { Put self.old self.new (decimal_of left n) left }
    {
        if left < 1 {
            return;
        }
        if n < 10 {
            self.byte(b'0' + n as u8);
            return;
        }
        self.decimal(n / 10, left - 1);
        self.byte(b'0' + (n % 10) as u8);
    }

    // n's last `left` hexadecimal digits.
    fn hex(&mut self, n: u64, left: usize)
        requires { self.old.at + left ≤ length self.old.out.now }
        ensures { Put self.old self.new (hex_of left n) left }
    {
        if left < 1 {
            return;
        }
        self.hex(n / 16, left - 1);
        self.byte(glyph((n % 16) as u8));
    }

    // A number, or `-` where it is the one that stands for unset.
    fn or_dash(&mut self, n: usize, unset: usize)
        requires { self.old.at + 10 ≤ length self.old.out.now }
        ensures { Put self.old self.new (or_dash unset n) 10 }
    {
        if n == unset {
            self.byte(b'-');
            return;
        }
        self.decimal(n, 10);
    }

    // Zoom and place.
    fn place(&mut self, zoom: usize, place: usize)
        requires { self.old.at + 22 ≤ length self.old.out.now }
        ensures { Put self.old self.new (place_text zoom place) 22 }
    {
        self.decimal(zoom, 10);
        self.byte(b' ');
        self.decimal(place, 10);
        self.byte(b' ');
    }

    // The bits of x and of y.
    fn point(&mut self, x: f64, y: f64)
        requires { self.old.at + 34 ≤ length self.old.out.now }
        ensures { Put self.old self.new (centre_text x y) 34 }
    {
        self.hex(bits(x), 16);
        self.byte(b' ');
        self.hex(bits(y), 16);
        self.byte(b' ');
    }

    // Seen and id.
    fn marks(&mut self, seen: usize, id: usize)
        requires { self.old.at + 22 ≤ length self.old.out.now }
        ensures { Put self.old self.new (marks_text seen id) 22 }
    {
        self.or_dash(seen, NEVER);
        self.byte(b' ');
        self.decimal(id, 10);
        self.byte(b' ');
    }

    // Parent, num, energy and the line's end.
    fn end(&mut self, parent: usize, num: usize, energy: usize)
        requires { self.old.at + 43 ≤ length self.old.out.now }
        ensures { Put self.old self.new (end_text parent num energy) 43 }
    {
        self.or_dash(parent, UNSET);
        self.byte(b' ');
        self.decimal(num, 10);
        self.byte(b' ');
        self.decimal(energy, 20);
        self.byte(b'\n');
    }

    // The line of the entry at a place of the table of a zoom.
    fn line(&mut self, zoom: u8, place: usize, e: Entry)
        requires { self.old.at + line_room ≤ length self.old.out.now }
        ensures { Put self.old self.new (line_text zoom place e) line_room }
    {
        self.place(zoom as usize, place);
        self.point(e.x, e.y);
        self.marks(e.seen as usize, e.id as usize);
        self.end(e.parent as usize, e.num as usize, e.energy as usize);
    }

    // The lines of the table of a zoom.
    fn table(&mut self, zoom: u8, t: &Entries<'_>)
        requires { self.old.at + line_room * length t.now.x.now ≤ length self.old.out.now }
        ensures { Put self.old self.new (table_text zoom 0 (rows (held t.now))) (line_room * length t.now.x.now) }
    {
        for i in 0..t.len() {
            self.line(zoom, i, t.at(i));
        }
    }

    // The lines of the table that a state says is that of the zoom z.
    fn zoom(&mut self, s: &State, z: u8, t: &Entries<'_>)
        requires { let len = get_or s.now.lens z 0 in
            (z < 32) × (get_or s.now.starts z 0 + len ≤ length t.now.x.now)
            × (self.old.at + line_room * len ≤ length self.old.out.now) }
        ensures { let q = held_at s.now.starts s.now.lens (rows (held t.now)) z in
            Put self.old self.new (table_text z 0 q) (line_room * get_or s.now.lens z 0) }
    {
        let start = s.starts[z as usize] as usize;
        let end = start + s.lens[z as usize] as usize;
        self.table(z, &t.part(start, end));
    }

    // The lines of every table of a state, the finest table first, at the start of the buffer.
    fn tables(&mut self, s: &State, t: &Entries<'_>)
        requires { (self.old.at ≡ 0) × Holding s.now (rows (held t.now)) (length self.old.out.now) }
        ensures { let ts = held_by s.now (rows (held t.now)) in
            Put self.old self.new (tables_text (s.now.options.max_zoom + 1) ts) (length self.old.out.now) }
    {
        let o = s.options;
        for z in (o.min_zoom..o.max_zoom + 2).rev() {
            self.zoom(s, z, t);
        }
    }

    // What a refusal carries: of 3 the point.
    fn carried(&mut self, e: Refusal)
        requires { self.old.at + 24 ≤ length self.old.out.now }
        ensures { Put self.old self.new (at_text (number_of e) (carried_of e)) 24 }
    {
        if e.number() == 3 {
            self.bytes(b" at=");
            self.decimal(e.carried(), 20);
        }
    }

    // The line of a refusal.
    fn refusal(&mut self, e: Refusal)
        requires { self.old.at + 43 ≤ length self.old.out.now }
        ensures { Put self.old self.new (refusal_text (number_of e) (carried_of e)) 43 }
    {
        self.bytes(b"refusal=");
        self.decimal(e.number() as usize, 10);
        self.carried(e);
        self.byte(b'\n');
    }
}

// What is printed for a head and the points that were read, at the start of `out`. How long it is.
fn report_read(
    h: Head,
    lamps: &LampColumns,
    columns: &mut ListerColumns,
    out: &mut [u8; 156672],
) -> usize
    requires { h.count ≤ 1152 }
    ensures text { let p = front_of h.count (held_lamps lamps.now) in
        Puts out.old out.new (build_text (options_of h) p) result }
    ensures left { let p = front_of h.count (held_lamps lamps.now) in
        lister_held columns.new ≡ (loaded_by (options_of h) p (lister_held columns.old)).columns }
{
    let n = h.count as usize;
    let points = Points {
        xs: &lamps.xs[..n],
        ys: &lamps.ys[..n],
        energies: &lamps.energies[..n],
    };
    let mut tables = TablesMut {
        x: &mut columns.x,
        y: &mut columns.y,
        seen: &mut columns.seen,
        id: &mut columns.id,
        parent: &mut columns.parent,
        num: &mut columns.num,
        energy: &mut columns.energy,
        ids: &mut columns.ids,
        coords: &mut columns.coords,
        near: &mut columns.near,
    };
    let built = supercluster::load(lister_text::options(h), &points, &mut tables);
    let mut w = Writer { out, at: 0 };
    match built {
        Ok(state) => w.tables(&state, &columns.entries()),
        Err(e) => w.refusal(e),
    }
    w.at
}

// What the lister prints for a text, at the start of `out`. How many bytes that is. The points that are read stand in columns of its own.
pub fn report(text: &[u8], columns: &mut ListerColumns, out: &mut [u8; 156672]) -> usize
    ensures { Reports text.now (lending (lister_held columns.old) out.old) result
        (lending (lister_held columns.new) out.new) }
{
    let mut lamps = LampColumns {
        xs: [0.0; 1152],
        ys: [0.0; 1152],
        energies: [0; 1152],
    };
    match lister_text::parse(text, &mut lamps) {
        Ok(h) => report_read(h, &lamps, columns, out),
        Err(e) => {
            let mut w = Writer { out, at: 0 };
            w.refusal(e);
            w.at
        }
    }
}
