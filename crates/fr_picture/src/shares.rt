//! The suppliers of a page: their looks, and how full their grants are.
ghost use Rattle.std.specs.Prelude.{◌≡◌, ◌<◌, OnOk, IfOk, map};
ghost use Rattle.std.specs.List.{position};
ghost use Rattle.fr_base.specs.Names.{same_text};
ghost use Rattle.fr_picture.specs.Shares.{holds_text, legend_text, look_text, mark_text, number_of, percent, round_text, share_of, share_text};
ghost use Rattle.fr_picture.specs.Texts.{Appends};

use crate::style::letter;
use crate::texts::{Fixed, push, push_fixed};
use fr_base::{GrantRow, Name, NoMemory, Sending};
use std::alloc::Global;

/// A supplier, and how full its grants are.
#[derive(Clone, Copy)]
pub struct Share {
    /// Its number, from 0 on, which gives its colour and its mark.
    pub number: usize,
    /// Its name.
    pub supplier: Name,
    /// How many lanes it holds: slots, each on a channel.
    pub held: usize,
    /// How many cells it sends in.
    pub sent: usize,
    /// How many cells its lanes have.
    pub room: u64,
}

/// How full the suppliers' grants are.
pub(crate) fn shares_of(
    alloc: Global,
    names: &[Name],
    cycles: u32,
    grants: &[GrantRow],
    cells: &[Sending],
) -> Result<Vec<Share>, NoMemory>
    ensures { IfOk result (λ shares.
        shares.items ≡ map (share_of names.now cycles grants.now cells.now) names.now) }
{
    let mut shares = Vec::new(alloc);
    for name in names {
        shares.push(measure(names, *name, cycles, grants, cells))?;
    }
    Ok(shares)
}

// How full the grants of this supplier are.
#[tactic(auto, unfolding(crate::specs::Shares::share_of))]
fn measure(
    names: &[Name],
    supplier: Name,
    cycles: u32,
    grants: &[GrantRow],
    cells: &[Sending],
) -> Share
    ensures { result ≡ share_of names.now cycles grants.now cells.now supplier }
{
    let held = grants
        .iter()
        .filter(|grant| grant.supplier == supplier)
        .count();
    let sent = cells
        .iter()
        .filter(|cell| cell.supplier == supplier)
        .count();
    Share {
        number: number_of(names, supplier),
        supplier,
        held,
        sent,
        room: (held as u64).saturating_mul(u64::from(cycles)),
    }
}

/// The number of the supplier of this name, which gives its colour and its mark.
pub(crate) fn number_of(names: &[Name], supplier: Name) -> usize
    ensures { result ≡ number_of names.now supplier }
{
    match place_of(names, supplier) {
        Some(number) => number,
        None => 0,
    }
}

// The place of the name among the names.
fn place_of(names: &[Name], supplier: Name) -> Option<usize>
    ensures { result ≡ position (λ name. same_text name supplier) names.now }
{
    names.iter().position(|name| *name == supplier)
}

/// Appends the mark of the supplier of this number: the letter of its colour, and how often the
/// colours came before it.
#[tactic(auto, unfolding(crate::specs::Shares::mark_text))]
pub(crate) fn push_mark(number: usize, out: &mut String) -> Result<(), NoMemory>
    ensures { OnOk result (Appends out.old out.new (mark_text number)) }
{
    push(letter(number), out)?;
    push_round(number / 8, out)
}

#[tactic(auto, unfolding(crate::specs::Shares::round_text))]
fn push_round(round: usize, out: &mut String) -> Result<(), NoMemory>
    ensures { OnOk result (Appends out.old out.new (round_text round)) }
{
    if round == 0 {
        Ok(())
    } else {
        write!(out, "{round}")
    }
}

/// Appends the legend: each supplier's colour, and how full its grants are.
#[tactic(auto, unfolding(crate::specs::Shares::legend_text))]
pub(crate) fn push_legend(shares: &[Share], out: &mut String) -> Result<(), NoMemory>
    ensures { OnOk result (Appends out.old out.new (legend_text shares.now)) }
{
    for share in shares {
        push_share(share, out)?;
    }
    Ok(())
}

#[tactic(auto, unfolding(crate::specs::Shares::share_text))]
fn push_share(share: &Share, out: &mut String) -> Result<(), NoMemory>
    ensures { OnOk result (Appends out.old out.new (share_text share.now)) }
{
    push_fixed(Fixed::KeyStart, out)?;
    push_look(share.number, out)?;
    push_fixed(Fixed::TagEnd, out)?;
    push_mark(share.number, out)?;
    push_holds(share, percent(share.sent as u64, share.room), out)
}

/// Appends the look of the supplier of this number: its colour, and a pattern where the colours came
/// before.
#[tactic(auto, unfolding(crate::specs::Shares::look_text))]
pub(crate) fn push_look(number: usize, out: &mut String) -> Result<(), NoMemory>
    ensures { OnOk result (Appends out.old out.new (look_text number)) }
{
    let colour = number % 8;
    let pattern = number / 8;
    if pattern == 0 {
        write!(out, "c{colour}")
    } else {
        write!(out, "\"c{colour} t{pattern}\"")
    }
}

#[tactic(auto, unfolding(crate::specs::Shares::holds_text))]
fn push_holds(share: &Share, percent: u64, out: &mut String) -> Result<(), NoMemory>
    ensures { OnOk result (Appends out.old out.new (holds_text share.now percent)) }
{
    let Share {
        supplier,
        held,
        sent,
        room,
        ..
    } = *share;
    write!(
        out,
        "</i> {supplier}: lanes {held}, cells {room}, sent in {sent} of them ({percent} %)</li>\n"
    )
}

// How many in a hundred the part is of the whole, rounded down.
fn percent(part: u64, whole: u64) -> u64
    ensures { result ≡ percent part whole }
{
    if whole == 0 {
        0
    } else {
        part.saturating_mul(100) / whole
    }
}
