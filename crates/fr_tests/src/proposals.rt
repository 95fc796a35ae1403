//! What is proposed for wishes: rows that were worked out by hand.
use crate::page_rows::{frame, name, no_rows, placement, slot};
use fr_base::{
    Channel, Channels, CycleSet, Name, Params, Placement, Proposal, ProposalRow, Refusal, Wish,
    WishRead,
};
use fr_world::{ChannelSlot, Page, PageRows, propose_wishes};
use std::alloc::Global;
use std::test::Fail;

// A frame of `n1`, and its placements.
#[derive(Clone, Copy)]
struct Placed<'a>(&'a str, &'a [(u32, Channels, u32, u32)]);

// A page of `n1`, which holds these lanes and sends these frames.
fn page(alloc: Global, lanes: &[(u32, Channel)], frames: &[Placed<'_>]) -> Result<Page, Fail> {
    let mut rows = no_rows(alloc)?;
    rows.nodes.insert(name("n1")?)?;
    rows.nodes.insert(name("n2")?)?;
    for (number, channel) in lanes {
        let at = ChannelSlot {
            slot: slot(*number)?,
            channel: *channel,
        };
        rows.grants.insert(at, name("n1")?)?;
    }
    for one in frames {
        let mut row = frame(alloc)?;
        for (number, channels, base, repetition) in one.1 {
            let place = placement(*number, *channels, *base, *repetition)?;
            row.placements.insert(place)?;
        }
        rows.frames.insert(name(one.0)?, row)?;
    }
    Ok(Page::build(alloc, rows)?.ok_or("page")?)
}

// What is proposed, a line for each wish and each lack, where wishes are read from line 2 on.
fn told(
    alloc: Global,
    page: &Page,
    replace: bool,
    wishes: &[(&str, &str, &str, u32)],
) -> Result<String, Fail> {
    let mut reads = Vec::new(alloc);
    let mut line = 2_u32;
    for (frame, node, channels, repetition) in wishes {
        let wish = Wish::read(
            &page.params(),
            frame.as_bytes(),
            node.as_bytes(),
            channels,
            *repetition,
        );
        reads.push(WishRead { line, wish })?;
        line = line.saturating_add(1);
    }
    let proposal = propose_wishes(alloc, page, &reads, replace).map_err(|_refusal| Fail::from(
        "memory",
    ))?;
    let mut text = String::new(alloc);
    for row in proposal.rows.as_slice() {
        text.push_str(&row_text(alloc, row)?)?;
    }
    for lack in proposal.lacks.as_slice() {
        let (node, channels, slots) = (lack.node, lack.channels.as_str(), lack.slots);
        text.push_str(&format!(in alloc; "LACK {node} {channels} {slots}\n")?)?;
    }
    Ok(text)
}

fn row_text(alloc: Global, row: &ProposalRow) -> Result<String, Fail> {
    let line = row.line;
    match row.proposed {
        Ok(one) => {
            let (frame, place) = (one.frame, one.placement);
            let (number, channels) = (place.slot.get(), place.channels.as_str());
            let (base, repetition) = (place.cycles.base(), place.cycles.repetition());
            Ok(format!(in alloc; "{line} {frame} {number} {channels} {base} {repetition}\n")?)
        }
        Err(refusal) => {
            let word = refusal.name();
            Ok(format!(in alloc; "{line} {word}\n")?)
        }
    }
}

#[test]
fn finer_wishes_leave_room_for_coarser_ones(rt: HostRuntime) -> Result<(), Fail> {
    let alloc = rt.alloc();
    let page = page(alloc, &[(1, Channel::A)], &[])?;
    let wishes = [
        ("f", "n1", "A", 64),
        ("g", "n1", "A", 64),
        ("h", "n1", "A", 2),
    ];
    let lines = told(alloc, &page, false, &wishes)?;
    assert_eq!(rt;
        lines.as_str(),
        "2 f 1 A 1 64\n3 g 1 A 33 64\n4 h 1 A 0 2\n"
    );
    Ok(())
}

#[test]
fn beside_what_is_there(rt: HostRuntime) -> Result<(), Fail> {
    let alloc = rt.alloc();
    let frames = [
        Placed("f", &[(1, Channels::A, 0, 4)]),
        Placed("g", &[(1, Channels::A, 3, 8)]),
    ];
    let page = page(alloc, &[(1, Channel::A)], &frames)?;
    let wishes = [
        ("a", "n1", "A", 8),
        ("c", "n1", "A", 2),
        ("b", "n1", "A", 4),
        ("d", "n1", "A", 64),
        ("f", "n1", "A", 4),
    ];
    let lines = told(alloc, &page, false, &wishes)?;
    assert_eq!(rt;
        lines.as_str(),
        "2 a 1 A 7 8\n3 NoRoom\n4 b 1 A 1 4\n5 NoRoom\n6 f 1 A 2 4\nLACK n1 A 1\n"
    );
    Ok(())
}

#[test]
fn lacking_slots(rt: HostRuntime) -> Result<(), Fail> {
    let alloc = rt.alloc();
    let page = page(
        alloc,
        &[(1, Channel::A)],
        &[Placed("f", &[(1, Channels::A, 0, 2)])],
    )?;
    let wishes = [
        ("a", "n1", "A", 1),
        ("b", "n1", "A", 2),
        ("c", "n1", "A", 2),
        ("d", "n1", "A", 1),
    ];
    let lines = told(alloc, &page, false, &wishes)?;
    assert_eq!(rt;
        lines.as_str(),
        "2 NoRoom\n3 b 1 A 1 2\n4 NoRoom\n5 NoRoom\nLACK n1 A 3\n"
    );
    Ok(())
}

#[test]
fn a_full_frame(rt: HostRuntime) -> Result<(), Fail> {
    let alloc = rt.alloc();
    let places = [
        (1, Channels::A, 0, 16),
        (1, Channels::A, 1, 16),
        (1, Channels::A, 2, 16),
        (1, Channels::A, 3, 16),
        (1, Channels::A, 4, 16),
        (1, Channels::A, 5, 16),
        (1, Channels::A, 6, 16),
        (1, Channels::A, 7, 16),
    ];
    let page = page(alloc, &[(1, Channel::A)], &[Placed("f", &places)])?;
    let wishes = [("f", "n1", "A", 64), ("g", "n1", "A", 64)];
    let lines = told(alloc, &page, false, &wishes)?;
    assert_eq!(rt; lines.as_str(), "2 Limit\n3 g 1 A 8 64\n");
    let lines = told(alloc, &page, true, &wishes)?;
    assert_eq!(rt; lines.as_str(), "2 f 1 A 0 64\n3 g 1 A 32 64\n");
    Ok(())
}

#[test]
fn channels_in_turn(rt: HostRuntime) -> Result<(), Fail> {
    let alloc = rt.alloc();
    let frames = [
        Placed("e", &[(1, Channels::A, 3, 4)]),
        Placed("f", &[(1, Channels::AB, 0, 2)]),
        Placed("g", &[(1, Channels::B, 1, 4)]),
        Placed("h", &[]),
    ];
    let page = page(
        alloc,
        &[(1, Channel::A), (1, Channel::B), (3, Channel::B)],
        &frames,
    )?;
    let wishes = [
        ("h", "n1", "B", 8),
        ("h", "n1", "A", 8),
        ("h", "n1", "AB", 8),
        ("h", "n1", "B", 2),
    ];
    let lines = told(alloc, &page, false, &wishes)?;
    assert_eq!(rt;
        lines.as_str(),
        "2 h 1 B 3 8\n3 h 1 A 1 8\n4 NoRoom\n5 h 3 B 0 2\nLACK n1 AB 1\n"
    );
    Ok(())
}

#[test]
fn refused_wishes(rt: HostRuntime) -> Result<(), Fail> {
    let alloc = rt.alloc();
    let page = page(alloc, &[(1, Channel::A)], &[Placed("f", &[])])?;
    let wishes = [
        ("f", "n2", "A", 2),
        ("g", "n9", "A", 2),
        ("g", "n1", "B", 2),
        ("g", "n2", "A", 2),
        ("g", "n1", "A", 3),
        ("g", "n1", "AC", 2),
        ("1g", "n1", "A", 2),
        ("g", "n1", "A", 2),
        ("f", "n1", "A", 4),
    ];
    let lines = told(alloc, &page, false, &wishes)?;
    assert_eq!(rt;
        lines.as_str(),
        "2 NodeDiffers\n3 NoNode\n4 NotGranted\n5 NotGranted\n6 BadCycles\n7 BadChannel\n8 BadName\n9 g 1 A 0 2\n10 f 1 A 1 4\n"
    );
    Ok(())
}

#[test]
fn nothing_moves_that_need_not(rt: HostRuntime) -> Result<(), Fail> {
    let alloc = rt.alloc();
    let frames = [
        Placed("f", &[(1, Channels::A, 0, 4)]),
        Placed("g", &[(1, Channels::A, 1, 4)]),
        Placed("h", &[(1, Channels::A, 2, 4)]),
    ];
    let page = page(alloc, &[(1, Channel::A)], &frames)?;
    let wishes = [
        ("f", "n1", "A", 4),
        ("k", "n1", "A", 8),
        ("g", "n1", "A", 4),
    ];
    let lines = told(alloc, &page, true, &wishes)?;
    assert_eq!(rt; lines.as_str(), "2 f 1 A 0 4\n3 k 1 A 3 8\n4 g 1 A 1 4\n");
    Ok(())
}

#[test]
fn something_must_move(rt: HostRuntime) -> Result<(), Fail> {
    let alloc = rt.alloc();
    let frames = [
        Placed("f", &[(1, Channels::A, 0, 4)]),
        Placed("g", &[(1, Channels::A, 1, 4)]),
    ];
    let page = page(alloc, &[(1, Channel::A)], &frames)?;
    let wishes = [
        ("f", "n1", "A", 4),
        ("g", "n1", "A", 4),
        ("k", "n1", "A", 2),
    ];
    let lines = told(alloc, &page, true, &wishes)?;
    assert_eq!(rt; lines.as_str(), "2 f 1 A 1 4\n3 g 1 A 3 4\n4 k 1 A 0 2\n");
    let lines = told(alloc, &page, false, &wishes)?;
    assert_eq!(rt;
        lines.as_str(),
        "2 f 1 A 2 4\n3 g 1 A 3 4\n4 NoRoom\nLACK n1 A 1\n"
    );
    let wishes = [
        ("f", "n1", "A", 4),
        ("g", "n1", "A", 4),
        ("k", "n1", "A", 1),
    ];
    let lines = told(alloc, &page, true, &wishes)?;
    assert_eq!(rt;
        lines.as_str(),
        "2 f 1 A 0 4\n3 g 1 A 1 4\n4 NoRoom\nLACK n1 A 1\n"
    );
    Ok(())
}
