//! What is proposed for the wishes of a supplier's file, on the supplier's page.
ghost use Rattle.std.specs.Prelude.{◌≡◌, ◌++◌, List, map, filter, IfErr, IfOk, MatchResult, OnOk};
ghost use Rattle.fr_base.specs.Lacks.{lack_rows};
ghost use Rattle.fr_base.specs.Proposals.{filled_places, given_all, given_beside, given_to, given_with, is_of_node, node_names, place_at, proposal, proposal_row};
ghost use Rattle.fr_base.specs.KeptPlaces.{keep};
ghost use Rattle.fr_base.specs.RefusedWishes.{asked_of, frames_beside};
ghost use Rattle.fr_base.specs.declared.refusal.Refusal.TheVariants.{Unavailable};
ghost use Rattle.std.specs.Prelude.{[]};
ghost use Rattle.fr_world.specs.Pages.{own_rows_of};

mod fit;
mod keeping;
mod lack;
mod refused;
mod rooms;
mod slots;
mod turns;

use crate::mask_occupancy::MaskOccupancy;
use crate::page::{Page, PageFrame};
use fr_base::{
    Asked, Given, LackRow, Name, NoMemory, Placement, Proposal, ProposalRow, ProposedPlacement,
    Refusal, Rows, WishRead,
};
use keeping::kept_wishes;
use lack::push_lacks;
use refused::{is_freed, judged};
use std::alloc::Global;
use turns::Plan;

/// What is proposed for the wishes: for each a placement, or what refuses it, and how many slots the
/// supplier's nodes lack. The wishes stand beside what the page has. Where they are to `replace`, the
/// frames that they name lose their placements, and a wish first keeps one that its frame had.
/// `Unavailable` where memory is refused. The page stays.
pub fn propose_wishes(
    alloc: Global,
    page: &Page,
    wishes: &[WishRead],
    replace: bool,
) -> Result<Proposal, Refusal>
    ensures { MatchResult result (λ told. told ≡ proposal (own_rows_of page.now) replace wishes.now)
        (λ e. e ≡ Unavailable) }
{
    let reads = judged(alloc, page, replace, wishes)?;
    let cells = filled_cells(alloc, page, replace, wishes)?;
    let given = given_all(alloc, page, &cells, &reads, replace)?;
    let rows = proposal_rows(alloc, &reads, &given)?;
    let lacks = lack_rows(alloc, page, &given)?;
    Ok(Proposal { rows, lacks })
}

// The cells that the page's frames fill, but for those that are freed.
fn filled_cells(
    alloc: Global,
    page: &Page,
    replace: bool,
    reads: &[WishRead],
) -> Result<MaskOccupancy, NoMemory>
    ensures { IfOk result (λ cells.
        cells ≡ filled_places (frames_beside (own_rows_of page.now) replace reads.now)) }
{
    let mut cells = MaskOccupancy::new(alloc);
    for (name, frame) in page.frames().iter() {
        if !is_freed(replace, reads, *name) {
            push_frame(&mut cells, *name, frame)?;
        }
    }
    Ok(cells)
}

// Lets the frame fill its cells too.
fn push_frame(cells: &mut MaskOccupancy, name: Name, frame: &PageFrame) -> Result<(), NoMemory>
    ensures { OnOk result (cells.new ≡ cells.old ++ map (λ q. (name, q)) frame.now.placements.keys) }
{
    for place in frame.placements.iter() {
        cells.add(name, place)?;
    }
    Ok(())
}

// What the wishes that are not refused are given, node by node.
fn given_all(
    alloc: Global,
    page: &Page,
    cells: &MaskOccupancy,
    reads: &[WishRead],
    replace: bool,
) -> Result<Vec<Given>, NoMemory>
    ensures { IfOk result (λ given. given.items
        ≡ given_all (own_rows_of page.now) replace cells.now (asked_of reads.now)) }
{
    let mut given = Vec::new(alloc);
    for node in page.nodes().iter() {
        let wishes = wishes_of(alloc, reads, *node)?;
        let plan = plan_of(alloc, page, cells, *node, &wishes, replace)?;
        given.extend_from_slice(&plan.given)?;
    }
    Ok(given)
}

// The node's wishes that are not refused.
fn wishes_of(alloc: Global, reads: &[WishRead], node: Name) -> Result<Vec<Asked>, NoMemory>
    ensures { IfOk result (λ wishes.
        wishes.items ≡ filter (is_of_node node) (asked_of reads.now)) }
{
    let mut wishes = Vec::new(alloc);
    for read in reads {
        if let Ok(wish) = read.wish {
            if wish.node == node {
                let line = read.line;
                wishes.push(Asked { line, wish })?;
            }
        }
    }
    Ok(wishes)
}

// What the node's wishes are given beside these cells.
fn plan_of(
    alloc: Global,
    page: &Page,
    cells: &MaskOccupancy,
    node: Name,
    wishes: &[Asked],
    replace: bool,
) -> Result<Plan, NoMemory>
    ensures { IfOk result (λ plan. plan.given.items
        ≡ given_to (own_rows_of page.now) replace cells.now node wishes.now) }
{
    if !replace {
        return plan_beside(alloc, page, cells, node, wishes);
    }
    let first = plan_with(alloc, page, cells, node, wishes)?;
    if first.is_whole() {
        return Ok(first);
    }
    let anew = plan_beside(alloc, page, cells, node, wishes)?;
    if anew.is_whole() {
        return Ok(anew);
    }
    Ok(first)
}

// What the node's wishes take in turn beside these cells.
fn plan_beside(
    alloc: Global,
    page: &Page,
    cells: &MaskOccupancy,
    node: Name,
    wishes: &[Asked],
) -> Result<Plan, NoMemory>
    ensures { IfOk result (λ plan. plan.given.items
        ≡ given_beside (own_rows_of page.now) node cells.now wishes.now) }
{
    let mut plan = Plan::new(alloc, cells.clone()?);
    plan.take_turns(alloc, page, node, wishes)?;
    Ok(plan)
}

// What wishes keep, and what the others take in turn beside it.
fn plan_with(
    alloc: Global,
    page: &Page,
    cells: &MaskOccupancy,
    node: Name,
    wishes: &[Asked],
) -> Result<Plan, NoMemory>
    ensures { IfOk result (λ plan. plan.given.items
        ≡ given_with (own_rows_of page.now) node cells.now
        (keep page.now.supplier (own_rows_of page.now).frames [] wishes.now)) }
{
    let mut plan = Plan::new(alloc, cells.clone()?);
    let mut others = Vec::new(alloc);
    let kept = kept_wishes(alloc, page, wishes)?;
    for one in &kept {
        if one.place.is_some() {
            plan.give(*one)?;
        } else {
            others.push(one.asked)?;
        }
    }
    plan.take_turns(alloc, page, node, &others)?;
    Ok(plan)
}

// A row for each wish.
fn proposal_rows(
    alloc: Global,
    reads: &[WishRead],
    given: &[Given],
) -> Result<Rows<ProposalRow>, NoMemory>
    ensures { IfOk result (λ rows. rows ≡ map (proposal_row given.now) reads.now) }
{
    let mut rows = Rows::new(alloc);
    for read in reads {
        let line = read.line;
        let proposed = proposed(read, given);
        rows.push(ProposalRow { line, proposed })?;
    }
    Ok(rows)
}

// What is proposed for the wish, or what refuses it.
fn proposed(read: &WishRead, given: &[Given]) -> Result<ProposedPlacement, Refusal>
    ensures { result ≡ (proposal_row given.now read.now).proposed }
{
    let wish = read.wish?;
    let placement = place_at(given, read.line).ok_or(Refusal::NoRoom)?;
    Ok(ProposedPlacement {
        frame: wish.frame,
        node: wish.node,
        placement,
    })
}

// The placement that was given at the line.
fn place_at(given: &[Given], line: u32) -> Option<Placement>
    ensures { result ≡ place_at given.now line }
{
    for one in given {
        if one.asked.line == line {
            return one.place;
        }
    }
    None
}

// What the supplier's nodes lack, by node, then channels.
fn lack_rows(alloc: Global, page: &Page, given: &[Given]) -> Result<Rows<LackRow>, Refusal>
    ensures ok { IfOk result (λ rows. rows
        ≡ lack_rows page.now.params given.now (node_names (own_rows_of page.now))) }
    ensures err { IfErr result (λ e. e ≡ Unavailable) }
{
    let mut lacks = Rows::new(alloc);
    for node in page.nodes().iter() {
        push_lacks(alloc, &page.params(), given, *node, &mut lacks)?;
    }
    Ok(lacks)
}
