// Posting a reading: a corrected figure of one lamp replaces the old one in the energy of each of the lamp's owners, without a new build.
// Nothing is asked of the caller: what SCOPE does not take is refused with its number, before anything is written.
#![tactic(auto)]

ghost use Rattle.std.specs.Prelude.{◌≡◌, true, ◌<◌, ◌≤◌, length};
ghost use Rattle.build_tables.specs.Options.{table_count};
ghost use Rattle.build_tables.specs.laws.Sound.{Stands};
ghost use Rattle.supercluster.specs.Build.{most_energy};
ghost use Rattle.ask_owner.specs.laws.Reach.{Spotted};
ghost use Rattle.posting.specs.Post.{owner_by, takes, mends, mendable, mended_at, mended, posting, posted};
ghost use Rattle.posting.specs.laws.Mends.{Ready};

use build_tables::State;
use refusals::Refusal;

// A lamp of a build, and its figure: as it was before, and as it is to be.
#[derive(Clone, Copy)]
struct Correction<'a> {
    state: &'a State,
    owners: &'a [u32],
    lamp: u32,
    before: u64,
    figure: u64,
}

impl Correction<'_> {
    // The place of the lamp's owner in the table of zoom z.
    fn owner_at(&self, z: usize) -> usize
        requires { let w = self.now in Spotted w.state.now (length w.owners.now) w.lamp z }
        ensures { let w = self.now in result ≡ owner_by w.state.now w.owners.now w.lamp z }
    {
        self.owners[ask_owner::spot(self.state, self.lamp, z)] as usize
    }

    // Whether a sum has the old figure in it, and fits with the new one.
    fn takes(&self, v: u64) -> bool
        ensures { result ≡ takes self.now.before self.now.figure v }
    {
        self.before <= v && v - self.before <= u64::MAX - self.figure
    }

    // Whether the table of zoom z can be mended.
    fn mends(&self, energy: &[u64], z: usize) -> bool
        requires { let w = self.now in Spotted w.state.now (length w.owners.now) w.lamp z × Stands w.state.now (length energy.now) z }
        ensures { let w = self.now in result ≡ mends w.state.now w.owners.now w.lamp w.before w.figure energy.now z }
    {
        let p = self.owner_at(z);
        if build_tables::len_of(*self.state, z) <= p {
            return false;
        }
        self.takes(energy[build_tables::start_of(*self.state, z) + p])
    }

    // Whether each table can be mended.
    fn all_mend(&self, energy: &[u64]) -> bool
        requires { let w = self.now in Ready w.state.now (length energy.now) (length w.owners.now) w.lamp }
        ensures { let w = self.now in
            result ≡ mendable w.state.now w.owners.now w.lamp w.before w.figure energy.now (table_count w.state.now.options) }
    {
        let o = self.state.options;
        for z in (o.min_zoom as usize..o.max_zoom as usize + 2).rev() {
            if !self.mends(energy, z) {
                return false;
            }
        }
        true
    }

    // Mends the sum of the lamp's owner in the table of zoom z.
    fn mend(&self, energy: &mut [u64], z: usize)
        requires { let w = self.now in Spotted w.state.now (length w.owners.now) w.lamp z × Stands w.state.now (length energy.old) z
            × (mends w.state.now w.owners.now w.lamp w.before w.figure energy.old z ≡ true) }
        ensures { let w = self.now in energy.new ≡ mended_at w.state.now w.owners.now w.lamp w.before w.figure energy.old z }
    {
        let at = build_tables::start_of(*self.state, z) + self.owner_at(z);
        energy[at] = energy[at] - self.before + self.figure;
    }

    // Mends each table.
    fn mend_all(&self, energy: &mut [u64])
        requires { let w = self.now in Ready w.state.now (length energy.old) (length w.owners.now) w.lamp
            × (mendable w.state.now w.owners.now w.lamp w.before w.figure energy.old (table_count w.state.now.options) ≡ true) }
        ensures { let w = self.now in
            energy.new ≡ mended w.state.now w.owners.now w.lamp w.before w.figure energy.old (table_count w.state.now.options) }
    {
        let o = self.state.options;
        for z in (o.min_zoom as usize..o.max_zoom as usize + 2).rev() {
            self.mend(energy, z);
        }
    }
}

// What is replied to a lamp of the build and a figure that is taken.
fn settle(
    s: &State,
    energy: &mut [u64],
    owners: &[u32],
    lamp: u32,
    figure: u64,
) -> Result<(), Refusal>
    requires { Ready s.now (length energy.old) (length owners.now) lamp × (figure ≤ most_energy) }
    ensures { posting result energy.new ≡ posted s.now energy.old owners.now lamp figure }
{
    let o = s.options;
    let top = o.max_zoom as usize + 1;
    let w = Correction {
        state: s,
        owners,
        lamp,
        before: energy[build_tables::start_of(*s, top) + lamp as usize],
        figure,
    };
    if w.owner_at(top) != lamp as usize {
        return Err(Refusal::Spoiled);
    }
    if !w.all_mend(energy) {
        return Err(Refusal::Spoiled);
    }
    w.mend_all(energy);
    Ok(())
}

// Replaces the figure of a lamp: its own energy in the finest table, and in every other table that of its owner.
pub fn post(
    s: State,
    energy: &mut [u64],
    owners: &[u32],
    lamp: u32,
    figure: u64,
) -> Result<(), Refusal>
    ensures { posting result energy.new ≡ posted s energy.old owners.now lamp figure }
{
    if !ask_owner::reaches(&s, energy.len(), owners.len()) {
        return Err(Refusal::Spoiled);
    }
    if s.count <= lamp {
        return Err(Refusal::Lamp);
    }
    if supercluster::MOST_ENERGY < figure {
        return Err(Refusal::Energy(lamp as usize));
    }
    settle(&s, energy, owners, lamp, figure)
}
