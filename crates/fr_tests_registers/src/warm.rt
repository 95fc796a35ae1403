//! Tests of `fr_office`. The check would let pass pages that are read again, and imports counted again, though there
//! is memory to keep the pages and the counts.
ghost use Rattle.std.specs.Prelude.{◌≡◌, IfOk, IfSome};

use crate::asks::{CLUSTER, DONE, Line, ask, carry_out};
use fr_base::{Channel, Config, Name, Params, Refusal, Slot, VariantRow};
use fr_office::{MAX_BYTES, Office};
use fr_text::read_config;
use fr_world::{ChannelSlot, Edit, KeptImport, Page, PageRows, Records};
use std::alloc::Global;
use std::collections::{BTreeMap, BTreeSet};
use std::test::Fail;

/// Records in which each variant is there. In each `s1` has a node that holds a slot, and of other rows there is none. They
/// count how often a page is read, and how often imports are counted. Each supplier keeps as many imports as they are told.
/// Of what they stand for nothing is said: they are never clean.
#[derive(Drop)]
pub(crate) struct Counted {
    config: Config,
    pub(crate) reads: u32,
    counts: u32,
    kept: usize,
}

impl Records for Counted {
    ghost stands = { λ _ _ _. ⊥ };

    ghost clean = { λ _. ⊥ };

    ghost serves = { λ _. ⊥ };

    ghost leaves = { λ _ _ _. ⊥ };

    ghost settled = { λ _ _ _ clean. absurd clean };

    ghost params = { λ counted. counted.config.cluster.params };

    fn config(&self) -> &Config {
        &self.config
    }

    fn has_variant(&mut self, _variant: Name) -> Result<bool, Refusal> {
        Ok(true)
    }

    fn page(
        &mut self,
        alloc: Global,
        supplier: Name,
        variant: Name,
    ) -> Result<Option<Page>, Refusal> {
        self.reads = self.reads.saturating_add(1);
        first_page(alloc, self.config.params(), supplier, variant)
    }

    fn is_held(&mut self, _variant: Name, _slot: Slot, _channel: Channel) -> Result<bool, Refusal> {
        Ok(false)
    }

    fn variants(&mut self, alloc: Global) -> Result<Vec<VariantRow>, Refusal> {
        let row = VariantRow {
            variant: Name::read("v1").ok_or(Refusal::BadName)?,
            parent: None,
            depth: 1,
            released: false,
        };
        Ok(vec![in alloc; row]?)
    }

    fn nodes(&mut self, alloc: Global, _supplier: Name) -> Result<Vec<Name>, Refusal> {
        Ok(Vec::new(alloc))
    }

    fn import(
        &mut self,
        _alloc: Global,
        _supplier: Name,
        _label: Name,
    ) -> Result<Option<KeptImport>, Refusal> {
        Ok(None)
    }

    fn imports(&mut self, _alloc: Global, _supplier: Name) -> Result<usize, Refusal> {
        self.counts = self.counts.saturating_add(1);
        Ok(self.kept)
    }

    fn apply(&mut self, _alloc: Global, _edits: &[Edit]) -> Result<(), Refusal> {
        Ok(())
    }
}

// The supplier's page of the variant before anything was asked.
fn first_page(
    alloc: Global,
    params: Params,
    supplier: Name,
    variant: Name,
) -> Result<Option<Page>, Refusal>
    ensures { IfOk result (λ found. IfSome found (λ page. page.params ≡ params)) }
{
    let mut rows = PageRows {
        params,
        supplier,
        variant,
        released: false,
        nodes: BTreeSet::new(alloc),
        grants: BTreeMap::new(alloc),
        frames: BTreeMap::new(alloc),
    };
    if supplier.as_str() == "s1" {
        let node = Name::read("n1").ok_or(Refusal::BadName)?;
        let at = ChannelSlot {
            slot: Slot::new(1).ok_or(Refusal::BadSlot)?,
            channel: Channel::A,
        };
        rows.nodes.insert(node)?;
        rows.grants.insert(at, node)?;
    }
    Ok(Page::build(alloc, rows)?)
}

/// With which key what is asked; and how often a page was read by then.
const ASKED: [(&str, &str, u32); 15] = [
    (
        "integrator1",
        r#"{"do":"add_node","supplier":"s1","node":"n2"}"#,
        0,
    ),
    (
        "integrator1",
        r#"{"do":"grant","variant":"v1","slot":2,"channel":"A","supplier":"s1","node":"n1"}"#,
        1,
    ),
    (
        "supplier01",
        r#"{"do":"add_frame","variant":"v1","frame":"f1","node":"n1"}"#,
        1,
    ),
    (
        "supplier01",
        r#"{"do":"place","variant":"v1","frame":"f1","slot":1,"channels":"A","base":0,"repetition":64}"#,
        1,
    ),
    (
        "supplier01",
        r#"{"do":"place","variant":"v1","frame":"f1","slot":1,"channels":"A","base":0,"repetition":1}"#,
        1,
    ),
    ("supplier01", r#"{"do":"frames","variant":"v1"}"#, 1),
    ("integrator1", r#"{"do":"schedule","variant":"v1"}"#, 2),
    (
        "integrator1",
        r#"{"do":"layout","variant":"v1","frame":"f1"}"#,
        2,
    ),
    (
        "integrator1",
        r#"{"do":"add_node","supplier":"s1","node":"n3"}"#,
        2,
    ),
    ("supplier01", r#"{"do":"gaps","variant":"v1"}"#, 3),
    (
        "supplier01",
        r#"{"do":"import","variant":"v1","label":"a","body":"frame,node,slot,channels,base,repetition\nf1,n1,1,A,0,64\n"}"#,
        3,
    ),
    (
        "supplier01",
        r#"{"do":"import","variant":"v1","label":"b","body":"frame,node,slot,channels,base,repetition\nf1,n1,1,A,1,64\n"}"#,
        3,
    ),
    ("integrator1", r#"{"do":"release","variant":"v1"}"#, 3),
    ("integrator1", r#"{"do":"grants","variant":"v1"}"#, 5),
    (
        "supplier02",
        r#"{"do":"drop_frame","variant":"v1","frame":"f1"}"#,
        5,
    ),
];

/// Records of which nothing was read.
pub(crate) fn unread(alloc: Global) -> Result<Counted, Fail> {
    let config = read_config(alloc, CLUSTER.as_bytes())?;
    Ok(Counted {
        config,
        reads: 0,
        counts: 0,
        kept: 0,
    })
}

/// An office that has read nothing, with room for many pages.
pub(crate) fn office(alloc: Global) -> Result<Office<Counted>, Fail> {
    let records = unread(alloc)?;
    Ok(Office::new(alloc, records, MAX_BYTES))
}

fn asked(alloc: Global, office: &mut Office<Counted>, key: &str, text: &str) -> Result<(), Fail> {
    let ask = ask(alloc, office, key, text)?;
    let _ = office.ask(alloc, &ask);
    Ok(())
}

// The records once these were asked.
fn after(alloc: Global, asks: &[(&str, &str, u32)]) -> Result<Counted, Fail> {
    let mut office = office(alloc)?;
    for (key, text, _) in asks {
        asked(alloc, &mut office, key, text)?;
    }
    Ok(office.into_records())
}

#[test]
fn a_page_is_read_once_until_it_is_let_go_and_imports_are_counted_once(
    rt: HostRuntime,
) -> Result<(), Fail> {
    for (index, (_, text, reads)) in ASKED.iter().enumerate() {
        let records = after(rt.alloc(), ASKED.split_at(index + 1).0)?;
        assert_eq!(rt; records.reads, *reads, "{text}");
    }
    // Of two imports of a supplier the second finds the count.
    assert_eq!(rt; after(rt.alloc(), &ASKED)?.counts, 1);
    Ok(())
}

/// An import of which a row is refused, and one for which there is no room; and a placement behind each.
const REFUSED: [Line; 6] = [
    (
        "supplier01",
        r#"{"do":"add_frame","variant":"v1","frame":"f1","node":"n1"}"#,
        DONE,
    ),
    (
        "supplier01",
        r#"{"do":"import","variant":"v1","label":"a","body":"frame,node,slot,channels,base,repetition\nf1,n1,2,A,0,64\n"}"#,
        r#"{"line":2,"no":29,"refused":"BadRow","row":{"no":21,"refused":"NotGranted"}}"#,
    ),
    (
        "supplier01",
        r#"{"do":"place","variant":"v1","frame":"f1","slot":1,"channels":"A","base":0,"repetition":64}"#,
        DONE,
    ),
    (
        "supplier01",
        r#"{"do":"import","variant":"v1","label":"b","body":"frame,node,slot,channels,base,repetition\nf1,n1,1,A,1,64\n"}"#,
        r#"{"ok":"imported","rows":1}"#,
    ),
    (
        "supplier01",
        r#"{"do":"import","variant":"v1","label":"c","body":"frame,node,slot,channels,base,repetition\nf1,n1,1,A,2,64\n"}"#,
        r#"{"no":23,"refused":"Limit"}"#,
    ),
    (
        "supplier01",
        r#"{"do":"place","variant":"v1","frame":"f1","slot":1,"channels":"A","base":3,"repetition":64}"#,
        DONE,
    ),
];

/// Whatever comes of an import, the page on which it is decided is not read again.
#[test]
fn a_refused_import_loses_no_page(rt: HostRuntime) -> Result<(), Fail> {
    let mut records = unread(rt.alloc())?;
    records.kept = 999;
    let mut office = Office::new(rt.alloc(), records, MAX_BYTES);
    carry_out(rt.alloc(), &mut office, &REFUSED)?;
    assert_eq!(rt; office.into_records().reads, 1);
    Ok(())
}

/// As many pages without rows as one shelf has room for.
const FULL: usize = 100;

/// The most bytes of a shelf that has room for so many and no more.
const KEPT: usize = FULL * 8_192 + 8_191;

// A supplier of which each page is without rows looks at its frames in the variant.
fn use_page(alloc: Global, office: &mut Office<Counted>, number: usize) -> Result<(), Fail> {
    let text = format!(in alloc; r#"{{"do":"frames","variant":"v{number}"}}"#)?;
    asked(alloc, office, "supplier02", &text)
}

fn use_pages(
    alloc: Global,
    office: &mut Office<Counted>,
    first: usize,
    past: usize,
) -> Result<(), Fail> {
    for number in first..past {
        use_page(alloc, office, number)?;
    }
    Ok(())
}

// The office once a shelf of pages was used and one more, then the first one again, and then as many others. The one that
// was used last lies on no shelf.
fn filled(alloc: Global) -> Result<Office<Counted>, Fail> {
    let mut office = Office::new(alloc, unread(alloc)?, KEPT);
    use_pages(alloc, &mut office, 1, FULL + 2)?;
    use_page(alloc, &mut office, 1)?;
    use_pages(alloc, &mut office, FULL + 2, 2 * FULL + 3)?;
    Ok(office)
}

// How often a page is read until this one is used again.
fn reads_of(alloc: Global, number: usize) -> Result<usize, Fail> {
    let mut office = filled(alloc)?;
    use_page(alloc, &mut office, number)?;
    Ok(office.into_records().reads as usize)
}

/// The page that was used again is kept, and the one that was used longest ago is not.
#[test]
fn as_many_pages_as_may_be_are_kept(rt: HostRuntime) -> Result<(), Fail> {
    assert_eq!(rt;
        filled(rt.alloc())?.into_records().reads as usize,
        2 * FULL + 2
    );
    assert_eq!(rt; reads_of(rt.alloc(), 1)?, 2 * FULL + 2);
    assert_eq!(rt; reads_of(rt.alloc(), 2)?, 2 * FULL + 3);
    Ok(())
}

/// A release lets go of the pages of its variant alone.
#[test]
fn a_release_lets_go_of_its_variants_pages(rt: HostRuntime) -> Result<(), Fail> {
    let mut office = filled(rt.alloc())?;
    let release = r#"{"do":"release","variant":"v1"}"#;
    asked(rt.alloc(), &mut office, "integrator1", release)?;
    use_page(rt.alloc(), &mut office, FULL + 2)?;
    use_page(rt.alloc(), &mut office, 1)?;
    assert_eq!(rt; office.into_records().reads as usize, 2 * FULL + 3);
    Ok(())
}
