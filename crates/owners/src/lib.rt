// The public build: that of `supercluster`, with the owner column filled beside its tables, and one owner for every lamp as what it
// ensures: demand 3 in the contract of the code that runs. The statements are in specs/Owners and specs/KeptOwners.
#![tactic(auto)]

ghost use Rattle.std.specs.Prelude.{◌≡◌, ℕ, IfOk};
ghost use Rattle.build_tables.specs.Lent.{SameTables};
ghost use Rattle.supercluster.specs.Build.{outcome, loaded};
ghost use Rattle.supercluster.specs.Lent.{lent_all_mut, columns_held};
ghost use Rattle.law_answers.specs.Stored.{columns_of};
ghost use Rattle.owners.specs.LoadedWith.{owned_outcome, loaded_with};
ghost use Rattle.owners.specs.Owners.{Owners};
ghost use Rattle.owners.specs.KeptOwners.{KeptOwners};

use build_tables::{Options, State, Tables, TablesMut};
use refusals::Refusal;
use supercluster::Points;

// The build in ten columns. They stand one by one here and below: a part of one field of a struct is not lent beside its other fields.
fn build_in(
    o: Options,
    points: &Points<'_>,
    x: &mut [f64],
    y: &mut [f64],
    seen: &mut [u8],
    id: &mut [u32],
    parent: &mut [u32],
    num: &mut [u32],
    energy: &mut [u64],
    ids: &mut [u32],
    coords: &mut [f64],
    near: &mut [u32],
) -> Result<State, Refusal>
    ensures { let p = points.now in
        let l = lent_all_mut x y seen id parent num energy ids coords near in
        outcome result l.exit ≡ loaded o p.xs.now p.ys.now p.energies.now l.entry }
{
    let mut t = TablesMut {
        x,
        y,
        seen,
        id,
        parent,
        num,
        energy,
        ids,
        coords,
        near,
    };
    supercluster::load(o, points, &mut t)
}

// The build with its owners. It is lent no more of `near` than `owners` has, so that 4 looks at both.
fn load_in(
    o: Options,
    points: &Points<'_>,
    x: &mut [f64],
    y: &mut [f64],
    seen: &mut [u8],
    id: &mut [u32],
    parent: &mut [u32],
    num: &mut [u32],
    energy: &mut [u64],
    ids: &mut [u32],
    coords: &mut [f64],
    near: &mut [u32],
    owners: &mut [u32],
) -> Result<State, Refusal>
    ensures owners_value { let p = points.now in
        let l = lent_all_mut x y seen id parent num energy ids coords near in
        owned_outcome (outcome result l.exit) owners.new
        ≡ loaded_with o p.xs.now p.ys.now p.energies.now l.entry owners.old }
    ensures fact { let c = columns_of (lent_all_mut x y seen id parent num energy ids coords near).exit in
        IfOk result (λ s. (own : ℕ → ℕ → ℕ) × Owners s c points.now.energies.now own × KeptOwners s owners.new own) }
{
    let most = near.len().min(owners.len());
    let s = build_in(
        o,
        points,
        x,
        y,
        seen,
        id,
        parent,
        num,
        energy,
        ids,
        coords,
        &mut near[..most],
    )?;
    let tables = Tables {
        x,
        y,
        seen,
        id,
        parent,
        num,
        energy,
        ids,
        coords,
    };
    build_owners::fill(&tables, s, near, owners);
    Ok(s)
}

// Builds the tables of the points, their indexes and each lamp's owner in each table in the lent columns, or refuses.
pub fn load(
    o: Options,
    points: &Points<'_>,
    t: &mut TablesMut<'_>,
    owners: &mut [u32],
) -> Result<State, Refusal>
    ensures owners_value { let p = points.now in
        owned_outcome (outcome result (columns_held t.new)) owners.new
        ≡ loaded_with o p.xs.now p.ys.now p.energies.now (columns_held t.old) owners.old }
    ensures fact { let c = columns_of (columns_held t.new) in
        IfOk result (λ s. (own : ℕ → ℕ → ℕ) × Owners s c points.now.energies.now own × KeptOwners s owners.new own) }
    ensures lent { SameTables t.old t.new }
{
    load_in(
        o, points, t.x, t.y, t.seen, t.id, t.parent, t.num, t.energy, t.ids, t.coords, t.near,
        owners,
    )
}
