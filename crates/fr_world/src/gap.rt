//! The greatest gap of a frame's placements.
ghost use Rattle.std.specs.Prelude.{◌≡◌, ◌+◌, ◌-◌, ◌≤◌, All, IfSome, length, max};
ghost use Rattle.std.specs.Option.{option_map_or};
ghost use Rattle.fr_base.specs.declared.limits.TheConstants.{MAX_PLACEMENTS};
ghost use Rattle.fr_base.specs.Moments.{greatest_gap};
ghost use Rattle.fr_base.specs.Sound.{FitsCluster};

use fr_base::{MAX_PLACEMENTS, Params, Placement};

/// The longest time from a moment at which a frame with these placements is sent to the next such moment,
/// in macroticks on the ring of all cycles. A moment is the start of a slot, so cells on A and on B at once
/// count once; a lone moment's gap is the whole ring. Where nothing is placed there is none.
pub fn greatest_gap(params: &Params, placements: &[Placement]) -> Option<u32>
    requires few { length placements.now ≤ MAX_PLACEMENTS }
    requires fits { All (FitsCluster params.now) placements.now }
    ensures { result ≡ greatest_gap params.now placements.now }
{
    let cycles = params.cycles();
    let cycle_length = params.macroticks_per_cycle();
    let slot_length = params.slot_macroticks();
    let mut room = [*placements.first()?; MAX_PLACEMENTS];
    let by_slot = &mut room[..placements.len()];
    by_slot.copy_from_slice(placements);
    by_slot.sort_unstable_by_key(|placement| placement.slot.get());
    let mut moments = None;
    for cycle in 0..cycles {
        for placement in by_slot.iter() {
            if placement.cycles.contains(cycle as u8) {
                let moment = cycle * cycle_length + (placement.slot.get() - 1) * slot_length;
                moments = Some(Moments::next(moments, moment));
            }
        }
    }
    Some(moments?.greatest_gap(cycles * cycle_length))
}

/// Some moments in rising order: the first one, the last one, and the greatest step from one to the
/// next.
#[derive(Clone, Copy)]
struct Moments {
    first: u32,
    last: u32,
    step: u32,
}

impl Moments {
    /// The moments with one more, which does not come before the last one.
    fn next(moments: Option<Moments>, moment: u32) -> Moments
        requires { IfSome moments (λ m. m.last ≤ moment) }
        ensures { result ≡ option_map_or
            (λ m. record { first = m.first; last = moment; step = max m.step (moment - m.last) })
            moments (record { first = moment; last = moment; step = 0 }) }
    {
        match moments {
            None => Moments {
                first: moment,
                last: moment,
                step: 0,
            },
            Some(moments) => Moments {
                first: moments.first,
                last: moment,
                step: moments.step.max(moment - moments.last),
            },
        }
    }

    /// The greatest gap on a ring of this length: the greatest step, or the way from the last
    /// moment round to the first.
    fn greatest_gap(self, ring: u32) -> u32
        requires { (self.first ≤ self.last) × (self.last ≤ ring) }
        ensures { result ≡ max self.step ((ring - self.last) + self.first) }
    {
        self.step.max(ring - self.last + self.first)
    }
}
