//! Tests of `fr_store`. The check would let pass files of a caller's own that are always `Unavailable`, though memory
//! is there.
ghost use Rattle.std.specs.Prelude.{◌≡◌, IsTrue, IfOk};

use crate::asks::{FIRST, are_answers, config, name, push_lines};
use fr_base::{Channel, Channels, CycleSet, Placement, Slot, VariantRow};
use fr_office::{MAX_BYTES, Office};
use fr_store::{Holder, MemoryFile, Store, StoreFault};
use fr_world::{ChannelSlot, Page, Records};
use sqlite::{Alter, FileStore, Files, Options};
use sqlite_disk::Disk;
use std::alloc::Global;
use std::test::Fail;

/// With what the logs are salted.
pub(crate) const SALT: u64 = 7;

fn empty_files(alloc: Global) -> Files<MemoryFile> {
    Files {
        log: MemoryFile::new(alloc),
        db: MemoryFile::new(alloc),
    }
}

// Whether the first requests, asked as one list, are answered as they say.
fn are_answered<R: Records>(alloc: Global, office: &mut Office<R>) -> Result<bool, Fail> {
    let mut asks = Vec::new(alloc);
    push_lines(&mut asks, alloc, office, &FIRST)?;
    match office.run(alloc, &asks) {
        Ok(answers) => are_answers(alloc, &answers, &FIRST),
        Err(_) => Err(Fail::from("no memory")),
    }
}

fn first_slot() -> Result<Slot, Fail> {
    Ok(Slot::new(1).ok_or("slot")?)
}

// Whether all that `s1` has is `f1` in cycle 0 of slot 1 on A, sent by `n1`.
fn has_first_frame(page: &Page) -> Result<bool, Fail> {
    let (n1, slot, channel) = (name("n1")?, first_slot()?, Channel::A);
    let frame = page.frames().get(&name("f1")?).ok_or("no frame")?;
    let placed = Placement {
        slot,
        channels: Channels::A,
        cycles: CycleSet::new(64, 0, 64)?,
    };
    let is_placed = frame.placements.len() == 1 && frame.placements.contains(&placed);
    Ok(
        page.grants().len() == 1
            && page.grants().get(&ChannelSlot { slot, channel }) == Some(&n1)
            && page.frames().len() == 1
            && frame.node == n1
            && is_placed
            && frame.layout.signals().is_empty(),
    )
}

// Whether the register has the rows of the first requests.
fn has_first_rows<S: Alter>(alloc: Global, store: &mut Store<S>) -> Result<bool, Fail> {
    let (supplier, variant, node) = (name("s1")?, name("v1")?, name("n1")?);
    let page = store.page(alloc, &supplier, &variant)?.ok_or("no variant")?;
    let opened = VariantRow {
        variant,
        parent: None,
        depth: 1,
        released: false,
    };
    Ok(
        has_first_frame(&page)?
            && store.holder(&variant, first_slot()?, Channel::A)? == Some(Holder { supplier, node })
            && store.variants(alloc)?.as_slice() == [opened].as_slice()
            && store.nodes(alloc, &supplier)?.as_slice() == [node].as_slice()
            && store.import(alloc, &supplier, &name("a")?)?.is_none()
            && store.imports(&supplier)? == 0,
    )
}

fn created<D: Disk + Drop>(
    alloc: Global,
    files: Files<D>,
) -> Result<Result<Store<FileStore<D>>, StoreFault>, Fail>
    requires log { IsTrue (D.Disk.is_usable files.log) }
    requires db { IsTrue (D.Disk.is_usable files.db) }
{
    let config = config(alloc)?;
    Ok(Store::create(alloc, files, &config, Options::new(SALT)).map_err(|(fault, _)| fault))
}

fn opened<D: Disk + Drop>(alloc: Global, files: Files<D>) -> Result<Store<FileStore<D>>, StoreFault>
    requires log { IsTrue (D.Disk.is_usable files.log) }
    requires db { IsTrue (D.Disk.is_usable files.db) }
{
    Store::open(alloc, files, Options::new(SALT)).map_err(|(fault, _)| fault)
}

// The files that a register leaves which was made in these and has answered the first requests.
fn filled<D: Disk + Drop>(alloc: Global, files: Files<D>) -> Result<Files<D>, Fail>
    requires log { IsTrue (D.Disk.is_usable files.log) }
    requires db { IsTrue (D.Disk.is_usable files.db) }
    ensures { IfOk result (λ files. IsTrue (D.Disk.is_usable files.log)
        × IsTrue (D.Disk.is_usable files.db)) }
{
    let mut office = Office::new(alloc, created(alloc, files)??, MAX_BYTES);
    if !are_answered(alloc, &mut office)? {
        return Err(Fail::from("other answers"));
    }
    Ok(office.into_records().close()?)
}

// The files that the register in these leaves, which has the rows of the first requests.
fn looked_at<D: Disk + Drop>(alloc: Global, files: Files<D>) -> Result<Files<D>, Fail>
    requires log { IsTrue (D.Disk.is_usable files.log) }
    requires db { IsTrue (D.Disk.is_usable files.db) }
    ensures { IfOk result (λ files. IsTrue (D.Disk.is_usable files.log)
        × IsTrue (D.Disk.is_usable files.db)) }
{
    let mut store = opened(alloc, files)?;
    if !has_first_rows(alloc, &mut store)? {
        return Err(Fail::from("other rows"));
    }
    Ok(store.close()?)
}

// What is told of the files of a register, where one is made.
fn made_again<D: Disk + Drop>(alloc: Global, files: Files<D>) -> Result<Option<StoreFault>, Fail>
    requires log { IsTrue (D.Disk.is_usable files.log) }
    requires db { IsTrue (D.Disk.is_usable files.db) }
{
    let files = looked_at(alloc, filled(alloc, files)?)?;
    Ok(created(alloc, files)?.err())
}

#[test]
fn a_register_is_closed_and_opened_again(rt: HostRuntime) -> Result<(), Fail> {
    let again = made_again(rt.alloc(), empty_files(rt.alloc()))?;
    assert!(rt; again == Some(StoreFault::NotEmpty));
    Ok(())
}

#[test]
fn no_register_is_in_empty_files(rt: HostRuntime) -> Result<(), Fail> {
    let found = opened(rt.alloc(), empty_files(rt.alloc())).err();
    assert!(rt; found == Some(StoreFault::NotARegister));
    Ok(())
}
