//! Small graphs, whose depths a plain breadth-first search gives.
ghost use Rattle.std.specs.Prelude.{◌≡◌, ℕ, ◌<◌, true, false, nat_le, length, OnOk};
ghost use Rattle.ifmap_region.specs.Flips.{IsFlipped};
ghost use Rattle.ifmap_region_tests.specs.Grid.{beside, is_corner, grid_link};
ghost use Rattle.ifmap_region.specs.Links.{Linked};
ghost use Rattle.ifmap_region.specs.Ways.{HasRoom};
ghost use Rattle.ifmap_region_tests.specs.Rooms.{KeepsEachRow};
ghost use Rattle.ifmap_region_tests.specs.Pairs.{far_end_of, far_end_at};

use ifmap_region::{Flip, LinkSource, Patch, Region, RegionUndo, build, repair};
use ifmap_steps::Steps;
use std::alloc::{AllocError as NoMemory, Global};
use std::cell::Cell;
use std::marker::Brand;
use std::sync::ledger::{Blank, Ledger};
use std::test::Fail;

// From this number on, no walk goes on.
const FIRST_TERMINAL: u64 = 90;

// Links by the pairs of their ends. Each number has a place for each link, and those of others
// do not match.
#[derive(Drop)]
struct Pairs<'a> {
    links: &'a [(u64, u64)],
}

fn far_end(link: (u64, u64), number: u64) -> Option<u64>
    ensures { result ≡ far_end_of link number }
{
    if link.0 == number {
        Some(link.1)
    } else if link.1 == number {
        Some(link.0)
    } else {
        None
    }
}

impl<'a> LinkSource for Pairs<'a> {
    ghost seen = { λ pairs. record {
      count = λ _. length pairs.links.now;
      link = far_end_at pairs.links.now;
      terminal = nat_le 90;
    } };

    fn count(&self, _number: u64) -> u64 {
        self.links.len() as u64
    }

    fn at<L: Ledger>(&self, number: u64, i: u64, steps: &mut Steps<L>) -> Option<u64> {
        steps.tick();
        far_end(self.links[i as usize], number)
    }

    fn is_terminal(&self, number: u64) -> bool {
        FIRST_TERMINAL <= number
    }
}

fn has_link(links: &[(u64, u64)], a: u64, b: u64) -> bool
    ensures { result ≡ true → Linked (λ _. length links.now) (far_end_at links.now) a b }
{
    for i in 0..links.len() {
        if let Some(other) = far_end(links[i], a) {
            if other == b {
                return true;
            }
        }
    }
    false
}

// Whether each added flip is a link.
fn added_are_links(links: &[(u64, u64)], flips: &[Flip]) -> bool
    ensures { result ≡ true → (v w : ℕ) → IsFlipped flips.now true v w
        → Linked (λ _. length links.now) (far_end_at links.now) v w }
{
    for flip in flips {
        if flip.added {
            if !has_link(links, flip.a, flip.b) || !has_link(links, flip.b, flip.a) {
                return false;
            }
        }
    }
    true
}

fn is_known(found: &[(u64, u32)], number: u64) -> bool {
    for f in found {
        if f.0 == number {
            return true;
        }
    }
    false
}

// Each number that is reached from 0, with its depth, by a plain breadth-first search.
fn depths_of(alloc: Global, links: &[(u64, u64)], top: u32) -> Result<Vec<(u64, u32)>, NoMemory> {
    let mut found = Vec::new(alloc);
    found.push((0, 0))?;
    for depth in 0..top {
        for i in 0..found.len() {
            if let Some((number, at)) = found.get(i).copied() {
                if at == depth && number < FIRST_TERMINAL {
                    search_from(links, number, depth, &mut found)?;
                }
            }
        }
    }
    Ok(found)
}

fn search_from(
    links: &[(u64, u64)],
    number: u64,
    depth: u32,
    found: &mut Vec<(u64, u32)>,
) -> Result<(), NoMemory>
    requires { depth < 4294967295 }
{
    for link in links {
        if let Some(other) = far_end(*link, number) {
            if !is_known(found, other) {
                found.push((other, depth + 1))?;
            }
        }
    }
    Ok(())
}

// How many numbers have a mark.
fn count_marked(region: &Region) -> usize {
    let mut marked = 0usize;
    for mark in region.marks.values() {
        if mark.is_some() {
            marked = marked.wrapping_add(1);
        }
    }
    marked
}

// Whether the region has exactly these marks.
fn has_marks(region: &Region, marks: &[(u64, u32)]) -> bool {
    for m in marks {
        if region.mark(m.0) != Some(m.1) {
            return false;
        }
    }
    count_marked(region) == marks.len()
}

// The same, and no row without a mark.
fn has_rows(region: &Region, marks: &[(u64, u32)]) -> bool {
    has_marks(region, marks) && region.marks.len() == marks.len()
}

// The patch of the change to a graph, where the added flips are its links.
fn patch_to<L: Ledger>(
    alloc: Global,
    region: &Region,
    links: &[(u64, u64)],
    flips: &[Flip],
    steps: &mut Steps<L>,
) -> Result<Option<Patch>, NoMemory> {
    if !added_are_links(links, flips) {
        return Ok(None);
    }
    Ok(Some(repair(alloc, region, &Pairs { links }, flips, steps)?))
}

// Gives a patch its rows; those that were there stay.
fn make_room(region: &mut Region, patch: &Patch) -> Result<(), NoMemory>
    ensures room { OnOk result (HasRoom patch.now region.new.marks.entries) }
    ensures kept { KeepsEachRow region.old.marks.entries region.new.marks.entries }
{
    region.reserve(patch)?;
    Ok(())
}

// Makes a patch, and gives the way back.
fn make_change(region: &mut Region, patch: Patch) -> RegionUndo
    requires { HasRoom patch region.old.marks.entries }
    ensures room { HasRoom result region.new.marks.entries }
    ensures kept { KeepsEachRow region.old.marks.entries region.new.marks.entries }
{
    region.commit_kept(patch)
}

// Takes a change back, and gives its patch.
fn take_back(region: &mut Region, undo: RegionUndo) -> Patch
    requires { HasRoom undo region.old.marks.entries }
    ensures kept { KeepsEachRow region.old.marks.entries region.new.marks.entries }
{
    region.undo(undo)
}

// Two graphs with the flips between them, and the depths over each.
#[derive(Drop)]
struct Case<'a> {
    old: &'a [(u64, u64)],
    new: &'a [(u64, u64)],
    flips: &'a [Flip],
    max_depth: u32,
    before: &'a [(u64, u32)],
    after: &'a [(u64, u32)],
}

// Makes a patch and takes it back: whether the marks are right at each moment.
fn go_and_return(
    region: &mut Region,
    patch: Patch,
    before: &[(u64, u32)],
    after: &[(u64, u32)],
) -> Result<bool, NoMemory> {
    make_room(region, &patch)?;
    let reserved = has_marks(region, before);
    let undo = make_change(region, patch);
    let made = has_marks(region, after);
    let patch = take_back(region, undo);
    let returned = has_marks(region, before);
    region.forget(patch);
    Ok(reserved && made && returned && has_rows(region, before))
}

// Makes a patch for good: whether the marks are right then.
fn go(region: &mut Region, patch: Patch, after: &[(u64, u32)]) -> Result<bool, NoMemory> {
    region.reserve(&patch)?;
    region.commit(patch);
    Ok(has_rows(region, after))
}

// Makes the change of a case and takes it back: whether the marks are right at each moment.
fn change_and_return<L: Ledger>(
    alloc: Global,
    region: &mut Region,
    case: &Case<'_>,
    steps: &mut Steps<L>,
) -> Result<bool, NoMemory> {
    match patch_to(alloc, region, case.new, case.flips, steps)? {
        Some(patch) => go_and_return(region, patch, case.before, case.after),
        None => Ok(false),
    }
}

// Makes the change of a case for good: whether the marks are right then.
fn change_for_good<L: Ledger>(
    alloc: Global,
    region: &mut Region,
    case: &Case<'_>,
    steps: &mut Steps<L>,
) -> Result<bool, NoMemory> {
    match patch_to(alloc, region, case.new, case.flips, steps)? {
        Some(patch) => go(region, patch, case.after),
        None => Ok(false),
    }
}

// Builds the region of a case, and changes it twice.
fn change_twice<L: Ledger>(
    alloc: Global,
    case: &Case<'_>,
    steps: &mut Steps<L>,
) -> Result<bool, NoMemory> {
    let old = Pairs { links: case.old };
    let mut region = build(alloc, 0, case.max_depth, &old, steps)?;
    let built = has_rows(&region, case.before);
    let returned = change_and_return(alloc, &mut region, case, steps)?;
    Ok(built && returned && change_for_good(alloc, &mut region, case, steps)?)
}

fn run<L: Ledger>(alloc: Global, case: &Case<'_>, blank: Blank) -> Result<bool, NoMemory>
    requires name { blank.name ≡ L.name }
    requires parts { blank.parts ≡ L.parts }
    requires some { 0 < blank.parts }
{
    let mut steps: Steps<L> = Steps::from_blank(blank);
    change_twice(alloc, case, &mut steps)
}

fn try_case(alloc: Global, case: &Case<'_>) -> Result<bool, NoMemory> {
    run::<Brand>(alloc, case, Blank::new(1))
}

// The flip of a link that goes.
fn flip_out(a: u64, b: u64) -> Flip
    ensures { result.added ≡ false }
{
    Flip { a, b, added: false }
}

// The flip of a link that comes.
fn flip_in(a: u64, b: u64) -> Flip {
    Flip { a, b, added: true }
}

#[test]
fn marks_follow_links_that_go_and_come(rt: HostRuntime) -> Result<(), Fail> {
    let cases = [
        // a link moves
        Case {
            old: &[(0, 1), (1, 2), (2, 3)],
            new: &[(1, 2), (2, 3), (0, 2)],
            flips: &[flip_out(0, 1), flip_in(0, 2)],
            max_depth: 2,
            before: &[(0, 0), (1, 1), (2, 2)],
            after: &[(0, 0), (2, 1), (1, 2), (3, 2)],
        },
        // a cycle is cut off
        Case {
            old: &[(0, 1), (1, 2), (2, 3), (3, 1)],
            new: &[(1, 2), (2, 3), (3, 1)],
            flips: &[flip_out(1, 0)],
            max_depth: 9,
            before: &[(0, 0), (1, 1), (2, 2), (3, 2)],
            after: &[(0, 0)],
        },
    ];
    for case in &cases {
        assert!(rt; try_case(rt.alloc(), case)?);
    }
    Ok(())
}

// Two changes that are made while a third has its rows, and then taken back, latest first: whether
// the marks are at each moment those of the changes that stand.
fn return_in_turn(
    region: &mut Region,
    first: RegionUndo,
    second: RegionUndo,
    third: Patch,
) -> Result<bool, NoMemory>
    requires first { HasRoom first region.old.marks.entries }
    requires second { HasRoom second region.old.marks.entries }
{
    make_room(region, &third)?;
    let reserved = has_marks(region, &[(0, 0), (2, 1), (3, 1)]);
    let second = take_back(region, second);
    let between = has_marks(region, &[(0, 0), (3, 1)]);
    let first = take_back(region, first);
    region.forget(first);
    region.forget(third);
    region.forget(second);
    Ok(reserved && between && has_rows(region, &[(0, 0), (1, 1), (2, 2)]))
}

// Makes a third patch of a region that was changed twice, and takes both changes back.
fn plan_and_return<L: Ledger>(
    alloc: Global,
    region: &mut Region,
    steps: &mut Steps<L>,
    first: RegionUndo,
    second: RegionUndo,
) -> Result<bool, NoMemory>
    requires first { HasRoom first region.old.marks.entries }
    requires second { HasRoom second region.old.marks.entries }
{
    let flips = [flip_out(0, 2), flip_out(0, 3), flip_in(0, 1), flip_in(3, 4)];
    match patch_to(alloc, region, &[(0, 1), (3, 4)], &flips, steps)? {
        Some(third) => return_in_turn(region, first, second, third),
        None => Ok(false),
    }
}

// Changes a region again, and goes on to the third patch.
fn change_again<L: Ledger>(
    alloc: Global,
    region: &mut Region,
    steps: &mut Steps<L>,
    first: RegionUndo,
) -> Result<bool, NoMemory>
    requires { HasRoom first region.old.marks.entries }
{
    let flips = [flip_out(1, 2), flip_in(0, 2)];
    let Some(second) = patch_to(alloc, region, &[(0, 2), (0, 3)], &flips, steps)? else {
        return Ok(false);
    };
    make_room(region, &second)?;
    let second = make_change(region, second);
    plan_and_return(alloc, region, steps, first, second)
}

// Changes a region twice, and goes on to a third patch and the ways back.
fn change_on<L: Ledger>(
    alloc: Global,
    region: &mut Region,
    steps: &mut Steps<L>,
) -> Result<bool, NoMemory> {
    let flips = [flip_out(0, 1), flip_in(0, 3)];
    let Some(first) = patch_to(alloc, region, &[(1, 2), (0, 3)], &flips, steps)? else {
        return Ok(false);
    };
    make_room(region, &first)?;
    let first = make_change(region, first);
    change_again(alloc, region, steps, first)
}

fn go_back<L: Ledger>(alloc: Global, blank: Blank) -> Result<bool, NoMemory>
    requires name { blank.name ≡ L.name }
    requires parts { blank.parts ≡ L.parts }
    requires some { 0 < blank.parts }
{
    let mut steps: Steps<L> = Steps::from_blank(blank);
    let graph = Pairs {
        links: &[(0, 1), (1, 2)],
    };
    let mut region = build(alloc, 0, 9, &graph, &mut steps)?;
    change_on(alloc, &mut region, &mut steps)
}

fn try_way_back(alloc: Global) -> Result<bool, NoMemory> {
    go_back::<Brand>(alloc, Blank::new(1))
}

#[test]
fn two_changes_are_taken_back_while_a_third_has_its_rows(rt: HostRuntime) -> Result<(), Fail> {
    assert!(rt; try_way_back(rt.alloc())?);
    Ok(())
}

// Links before and after a change, and the change.
#[derive(Drop)]
struct Drawing {
    old: Vec<(u64, u64)>,
    new: Vec<(u64, u64)>,
    flips: Vec<Flip>,
}

// What the dice say of a link: it is there before, after, both or never.
fn draw_link(drawing: &mut Drawing, a: u64, b: u64, dice: u64) -> Result<(), NoMemory> {
    match dice {
        0 | 1 => {
            drawing.old.push((a, b))?;
            drawing.new.push((a, b))?;
        }
        2 => {
            drawing.old.push((a, b))?;
            drawing.flips.push(flip_out(b, a))?;
        }
        3 => {
            drawing.new.push((a, b))?;
            drawing.flips.push(flip_in(a, b))?;
        }
        _ => (),
    }
    Ok(())
}

// A graph of seven numbers, the last of which is terminal, and a change of its links.
fn draw(alloc: Global, seed: u64) -> Result<Drawing, NoMemory> {
    let mut drawing = Drawing {
        old: Vec::new(alloc),
        new: Vec::new(alloc),
        flips: Vec::new(alloc),
    };
    let mut state = seed;
    for pair in 0u64..49 {
        state = state
            .wrapping_mul(6364136223846793005)
            .wrapping_add(1442695040888963407);
        let (a, b) = (pair / 7, pair % 7);
        if a < b {
            let far = if b == 6 { FIRST_TERMINAL } else { b };
            draw_link(&mut drawing, a, far, state / 8589934592 % 9)?;
        }
    }
    Ok(drawing)
}

fn agrees_with_search(alloc: Global, seed: u64) -> Result<bool, NoMemory> {
    let drawing = draw(alloc, seed)?;
    let max_depth = (seed % 5) as u32;
    let before = depths_of(alloc, &drawing.old, max_depth)?;
    let after = depths_of(alloc, &drawing.new, max_depth)?;
    let case = Case {
        old: &drawing.old,
        new: &drawing.new,
        flips: &drawing.flips,
        max_depth,
        before: &before,
        after: &after,
    };
    try_case(alloc, &case)
}

#[test]
fn two_hundred_small_graphs_agree_with_a_plain_search(rt: HostRuntime) -> Result<(), Fail> {
    for seed in 0u64..200 {
        assert!(rt; agrees_with_search(rt.alloc(), seed)?, "at {seed}");
    }
    Ok(())
}

// A grid of a hundred by a hundred numbers, 128 times the row and the column, which counts its
// answers. Where `cut` holds, the first link of the corner is not there.
#[derive(Drop)]
struct Grid {
    cut: bool,
    answers: Cell<u64>,
}

fn beside_at(number: u64, i: u64) -> Option<u64>
    ensures { result ≡ beside number i }
{
    match i {
        0 => {
            if number % 128 < 99 {
                number.checked_add(1)
            } else {
                None
            }
        }
        1 => {
            if 0 < number % 128 && number % 128 < 100 {
                Some(number - 1)
            } else {
                None
            }
        }
        2 => {
            if number / 128 < 99 {
                Some(number + 128)
            } else {
                None
            }
        }
        _ => {
            if 127 < number && number < 12800 {
                Some(number - 128)
            } else {
                None
            }
        }
    }
}

fn is_first_link(a: u64, b: u64) -> bool
    ensures { result ≡ is_corner a b }
{
    (a == 0 && b == 1) || (a == 1 && b == 0)
}

impl LinkSource for Grid {
    ghost seen = { λ grid. record {
      count = λ _. 4;
      link = grid_link grid.cut;
      terminal = λ _. false;
    } };

    fn count(&self, _number: u64) -> u64 {
        4
    }

    fn at<L: Ledger>(&self, number: u64, i: u64, steps: &mut Steps<L>) -> Option<u64> {
        steps.tick();
        self.answers.set(self.answers.get().wrapping_add(1));
        match beside_at(number, i) {
            Some(other) => {
                if self.cut && is_first_link(number, other) {
                    None
                } else {
                    Some(other)
                }
            }
            None => None,
        }
    }

    fn is_terminal(&self, _number: u64) -> bool {
        false
    }
}

// How many marks of the grid are not the row and the column together, the first row excepted,
// where it is two more from the column 1 on.
fn wrong_marks(region: &Region) -> u64 {
    let mut wrong = 0u64;
    for y in 0u32..100 {
        for x in 0u32..100 {
            let detour = if y == 0 && 0 < x { 2 } else { 0 };
            if region.mark(u64::from(y) * 128 + u64::from(x)) != Some(x + y + detour) {
                wrong = wrong.wrapping_add(1);
            }
        }
    }
    wrong
}

// The answers that building took, those that the repair took, and the marks that are wrong then.
fn cut_corner<L: Ledger>(alloc: Global, blank: Blank) -> Result<(u64, u64, u64), NoMemory>
    requires name { blank.name ≡ L.name }
    requires parts { blank.parts ≡ L.parts }
    requires some { 0 < blank.parts }
{
    let mut steps: Steps<L> = Steps::from_blank(blank);
    let whole = Grid {
        cut: false,
        answers: Cell::new(0),
    };
    let mut region = build(alloc, 0, 1000, &whole, &mut steps)?;
    let cut = Grid {
        cut: true,
        answers: Cell::new(0),
    };
    let first = flip_out(0, 1);
    let patch = repair(alloc, &region, &cut, &[first], &mut steps)?;
    region.reserve(&patch)?;
    region.commit(patch);
    Ok((whole.answers.get(), cut.answers.get(), wrong_marks(&region)))
}

fn try_corner(alloc: Global) -> Result<(u64, u64, u64), NoMemory> {
    cut_corner::<Brand>(alloc, Blank::new(1))
}

// The first row is touched, and the second is beside it: two hundred numbers of four links each.
#[test]
fn a_cut_corner_of_a_grid_takes_steps_near_it_alone(rt: HostRuntime) -> Result<(), Fail> {
    let (built, repaired, wrong) = try_corner(rt.alloc())?;
    let bound = 5 * 200 * (1 + 4);
    println!(rt; "built in {built} steps, repaired in {repaired}, of at most {bound}")?;
    assert_eq!(rt; wrong, 0);
    assert_eq!(rt; built, 40000);
    assert!(rt; repaired <= bound, "{repaired}");
    Ok(())
}
