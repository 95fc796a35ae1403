//! Tests of `fr_layout`. The contracts leave open whether a tool of others packs the same bytes, and whether calls
//! succeed.
use fr_base::{Name, Order, Signal};
use fr_layout::Layout;
use std::alloc::Global;
use std::test::Fail;

fn signal(name: &str, start: u32, length: u32, order: Order) -> Result<Signal, Fail> {
    let name = Name::read(name).ok_or("no name")?;
    Ok(Signal::new(name, start, length, order)?)
}

/// A signal alone in a payload of ten bytes: its start, length and value, and the first eight and the last
/// two of those bytes, each as a number whose first byte is the most significant one.
type Packed = (u32, u32, u64, u64, u16);

/// Packed by bitstruct 8.15.1 (Debian's package python3-bitstruct), of which each payload is a number whose
/// fields follow one another from its most significant bit on. In little order it has the bits after the
/// signal first, and its bytes are turned round: `pack("p57u8p15", value)[::-1]` for start 15 and length 8.
static LITTLE: [Packed; 7] = [
    (0, 1, 0x1, 0x0100000000000000, 0x0000),
    (15, 8, 0xB5, 0x00805A0000000000, 0x0000),
    (0, 13, 0x16B9, 0xB916000000000000, 0x0000),
    (7, 14, 0x2D71, 0x80B8160000000000, 0x0000),
    (8, 27, 0x5AE1CD3, 0x00D31CAE05000000, 0x0000),
    (7, 62, 0x2D70E69B4BE07915, 0x808A3CF0A54D73B8, 0x1600),
    (15, 64, 0xB5C39A6D2F81E457, 0x00802BF2C09736CD, 0xE15A),
];

/// Packed by bitstruct too, with as many bits before the signal as stand before its start where each
/// byte's most significant bit is counted first: `pack("p15u13p52", value)` for start 8 and length 13.
static BIG: [Packed; 7] = [
    (8, 1, 0x1, 0x0001000000000000, 0x0000),
    (7, 8, 0xB5, 0xB500000000000000, 0x0000),
    (8, 13, 0x16B9, 0x00016B9000000000, 0x0000),
    (15, 14, 0x2D71, 0x00B5C40000000000, 0x0000),
    (0, 27, 0x5AE1CD3, 0x016B8734C0000000, 0x0000),
    (15, 62, 0x2D70E69B4BE07915, 0x00B5C39A6D2F81E4, 0x5400),
    (7, 64, 0xB5C39A6D2F81E457, 0xB5C39A6D2F81E457, 0x0000),
];

/// Whether the signal's value is packed into those bytes, and unpacked from them.
fn is_packed(alloc: Global, order: Order, packed: &Packed) -> Result<bool, Fail> {
    let (start, length, value, first, last) = *packed;
    let mut layout = Layout::new(alloc, 5);
    layout.add(signal("s", start, length, order)?)?;
    let bytes = layout.pack(alloc, &[value])?;
    let values = layout.unpack(alloc, &bytes)?;
    Ok(
        values.as_slice() == [value].as_slice()
            && bytes.starts_with(&first.to_be_bytes())
            && bytes.ends_with(&last.to_be_bytes()),
    )
}

#[test]
fn packs_as_bitstruct_does(rt: HostRuntime) -> Result<(), Fail> {
    for packed in &LITTLE {
        assert!(rt;
            is_packed(rt.alloc(), Order::Little, packed)?,
            "little {packed:?}"
        );
    }
    for packed in &BIG {
        assert!(rt;
            is_packed(rt.alloc(), Order::Big, packed)?,
            "big {packed:?}"
        );
    }
    Ok(())
}

// 64 signals of 31 bits, one behind the other, in 127 words.
fn full_layout(alloc: Global) -> Result<Layout, Fail> {
    let mut layout = Layout::new(alloc, 127);
    for index in 0..64 {
        let name = format!(in alloc; "s{index}")?;
        let added = signal(&name, 31 * index, 31, Order::Little)?;
        if layout.admits(&added) != Ok(()) {
            return Err(Fail::from("not admitted"));
        }
        layout.add(added)?;
    }
    Ok(layout)
}

/// With ample memory each call succeeds, up to 64 signals in 127 words.
#[test]
fn layout_and_text_calls_succeed(rt: HostRuntime) -> Result<(), Fail> {
    let mut layout = full_layout(rt.alloc())?;
    let mut values = [0x2aaa_aaaa; 64];
    values[63] = 0x7fff_ffff;
    let bytes = layout.pack(rt.alloc(), &values)?;
    assert_eq!(rt; bytes.len(), 254);
    let unpacked = layout.clone()?.unpack(rt.alloc(), &bytes)?;
    assert_eq!(rt; unpacked.as_slice(), values.as_slice());
    layout.remove(Name::read("s63").ok_or("no name")?)?;
    assert_eq!(rt; layout.signals().len(), 63);
    Ok(())
}
