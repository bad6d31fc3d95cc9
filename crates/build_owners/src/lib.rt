// The owner column of a build: each lamp's owner in each table, as a place of the table, filled from the finest table down. No entry is
// searched for by its id: each began with a lamp, and the place that owns this lamp in the finer table goes to it.
// Below the surface: what is asked of the caller `owners::load` has shown.
#![tactic(auto)]

ghost use Rattle.std.specs.Prelude.{◌≡◌, ◌⊎◌, ℕ, suc, ◌+◌, ◌-◌, ◌*◌, ◌<◌, ◌≤◌, length, get_or, replicate};
ghost use Rattle.build_tables.specs.Entries.{unset};
ghost use Rattle.build_tables.specs.Rows.{rows};
ghost use Rattle.build_tables.specs.laws.Roomy.{Roomy, front_cols};
ghost use Rattle.build_tables.specs.Lent.{tables_held};
ghost use Rattle.build_tables.specs.Options.{table_count};
ghost use Rattle.build_tables.specs.State.{start_of, len_of};
ghost use Rattle.build_all_zooms.specs.Zooms.{laid_over};
ghost use Rattle.supercluster.specs.laws.Held.{held_by};
ghost use Rattle.build_owners.specs.OwnerColumn.{owner_column};
ghost use Rattle.build_owners.specs.laws.Climbs.{rows_of, lead_of, Chain, seat_of, owner_on, finer, Climbable};
ghost use Rattle.build_owners.specs.laws.Fills.{Wrote, lead_from, Sends, Sent, next_owner, Sits};

use build_tables::{Entries, Entry, State, Tables};

// A build: the entries of its tables, and the state that says which they are.
#[derive(Clone, Copy)]
struct Build<'a, 's> {
    entries: Entries<'a>,
    state: &'s State,
}

// With which place of its table the place k goes: the origin of the cluster that absorbed it, or itself.
fn seat(e: Entry, n: u32, k: usize) -> usize
    requires { (e.parent ≡ unset) ⊎ (n ≤ e.parent) }
    ensures { result ≡ seat_of n e k }
{
    if e.parent == build_tables::UNSET {
        return k;
    }
    build_tables::origin_of(e.parent, n)
}

// In the finest table a lamp owns itself. The loop goes by places: of what `iter_mut` and `enumerate` leave nothing is known afterwards.
fn own_themselves(owners: &mut [u32], n: usize)
    requires { (n ≤ length owners.old) × (n ≤ 1048576) }
    ensures { Wrote 0 n (λ (l : ℕ). l) owners.old owners.new }
{
    for l in 0..n {
        owners[l] = l as u32;
    }
}

impl Build<'_, '_> {
    // The lamp that the entry with the id `from` began with: the lamp itself, or that of the origin of its cluster.
    fn lead(&self, from: u32) -> u32
        requires { let s = self.now.state.now in Chain s.count s.starts (rows_of self.now) 32 from }
        ensures { let s = self.now.state.now in result ≡ lead_of s.count s.starts (rows_of self.now) 32 from }
    {
        let n = self.state.count;
        let mut c = from;
        for _ in 0..build_tables::ZOOMS {
            if c < n {
                return c;
            }
            let t = build_tables::table_of(c, n);
            let at = self.state.starts[t] as usize + build_tables::origin_of(c, n);
            let e = self.entries.at(at);
            c = e.id;
        }
        c
    }

    // The place that owns the lamp which each entry of table z began with goes to this entry; `own` has the owners in table z + 1.
    fn send(&self, z: usize, own: &[u32], to: &mut [u32])
        requires { let s = self.now.state.now in
            (z < 32) × Sends s.count s.starts (rows_of self.now) (start_of s z) (len_of s z) own.now (length to.old) }
        ensures { let s = self.now.state.now in
            let at = lead_from s.count s.starts (rows_of self.now) (start_of s z) in
            Sent (λ d. get_or own.now (at d) 0) (len_of s z) to.new }
    {
        let start = build_tables::start_of(*self.state, z);
        for d in 0..build_tables::len_of(*self.state, z) {
            let e = self.entries.at(start + d);
            let l = self.lead(e.id) as usize;
            let k = own[l] as usize;
            to[k] = d as u32;
        }
    }

    // Each lamp's owner in the next table, behind those in table z, which stand at `at`.
    fn climb(&self, z: usize, to: &[u32], owners: &mut [u32], at: usize)
        requires { let s = self.now.state.now in
            (z < 32) × Sits s.count (rows_of self.now) (start_of s z) (length to.now) owners.old at }
        ensures { let s = self.now.state.now in
            Wrote (at + s.count) s.count (next_owner s.count (rows_of self.now) (start_of s z) to.now owners.old at)
            owners.old owners.new }
    {
        let n = self.state.count;
        let start = build_tables::start_of(*self.state, z);
        let next = at + n as usize;
        for l in 0..n as usize {
            let k = owners[at + l] as usize;
            let e = self.entries.at(start + k);
            let s = seat(e, n, k);
            owners[next + l] = to[s];
        }
    }

    // The owners in the table of zoom z, behind those in table z + 1, which stand at `at`.
    fn one_table(&self, z: usize, to: &mut [u32], owners: &mut [u32], at: usize)
        requires { let s = self.now.state.now in
            Climbable s (rows_of self.now) × (s.options.min_zoom ≤ z) × (z ≤ s.options.max_zoom)
            × (length to.old ≡ s.count) × (at + s.count + s.count ≤ length owners.old)
            × ((l : ℕ) → l < s.count → get_or owners.old (at + l) 0 ≡ finer s (rows_of self.now) z l) }
        ensures { let s = self.now.state.now in
            Wrote (at + s.count) s.count (owner_on s (rows_of self.now) z) owners.old owners.new }
    {
        let end = at + self.state.count as usize;
        self.send(z, &owners[at..end], to);
        self.climb(z + 1, to, owners, at);
    }

    // The owners in every table; `to` is room to work, and is left as zeros.
    fn fill(&self, to: &mut [u32], owners: &mut [u32])
        requires { let s = self.now.state.now in
            Climbable s (rows_of self.now) × (length to.old ≡ s.count) × (table_count s.options * s.count ≤ length owners.old) }
        ensures { let s = self.now.state.now in
            (to.new ≡ replicate (length to.old) 0)
            × (owners.new ≡ laid_over (owner_column s.count (held_by s (rows_of self.now))) owners.old) }
    {
        let n = self.state.count as usize;
        let o = self.state.options;
        own_themselves(owners, n);
        let mut at = 0;
        for z in (o.min_zoom as usize..o.max_zoom as usize + 1).rev() {
            self.one_table(z, to, owners, at);
            at += n;
        }
        to.fill(0);
    }
}

// The owners in every table of a build, in the fronts of the columns: those of the index are not read, and may be of any length. The front
// of `near` is room to work, and is left as zeros.
pub fn fill(t: &Tables<'_>, s: State, near: &mut [u32], owners: &mut [u32])
    requires { let c = (tables_held t.now).table in
        let m = table_count s.options * s.count in
        Roomy m c × Climbable s (rows (front_cols m c)) × (s.count ≤ length near.old) × (m ≤ length owners.old) }
    ensures { let R = rows (front_cols (table_count s.options * s.count) (tables_held t.now).table) in
        (near.new ≡ laid_over (replicate s.count 0) near.old)
        × (owners.new ≡ laid_over (owner_column s.count (held_by s R)) owners.old) }
{
    let n = s.count as usize;
    let m = build_tables::table_count(s.options) * n;
    let entries = Entries {
        x: &t.x[..m],
        y: &t.y[..m],
        seen: &t.seen[..m],
        id: &t.id[..m],
        parent: &t.parent[..m],
        num: &t.num[..m],
        energy: &t.energy[..m],
    };
    let build = Build { entries, state: &s };
    build.fill(&mut near[..n], owners);
}
