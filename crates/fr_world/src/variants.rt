//! How the integrator's commands on all suppliers are decided by the list of variants.
ghost use Rattle.std.specs.Prelude.{◌≡◌, Some, option_map};
ghost use Rattle.fr_world.specs.Common.{allows_flat, common_edit, depth_after, opening, row_of};

use crate::edit::Edit;
use fr_base::{Beginning, CommonCommand, MAX_DEPTH, MAX_VARIANTS, Name, Refusal, VariantRow};

/// The edit that opens or releases a variant of the register, or the first refusal. For a new
/// variant the refusals are `NoVariant` and `NotReleased` of the one whose rows it begins with,
/// `TooDeep` of its parent (it is not opened flat), then `Exists` and `Limit`; for a release `NoVariant` and `Released`. It takes no memory.
pub fn decide_common(variants: &[VariantRow], command: &CommonCommand) -> Result<Edit, Refusal>
    ensures { result ≡ common_edit variants.now command.now }
{
    match command {
        CommonCommand::OpenVariant { variant, beginning } => {
            open_variant(variants, *variant, beginning)
        }
        CommonCommand::Release { variant } => release(variants, *variant),
    }
}

#[tactic(auto, unfolding(crate::proofs::CommonLaws::common_open))]
fn open_variant(
    variants: &[VariantRow],
    variant: Name,
    beginning: &Beginning<Name>,
) -> Result<Edit, Refusal>
    ensures { result ≡ common_edit variants.now (CommonCommand.OpenVariant variant beginning.now) }
{
    let edit = opening(variants, variant, beginning)?;
    if find_variant(variants, variant).is_some() {
        return Err(Refusal::Exists);
    }
    if variants.len() >= MAX_VARIANTS {
        return Err(Refusal::Limit);
    }
    Ok(edit)
}

// The edit that opens a variant, or the first refusal by what it begins with.
#[tactic(auto, unfolding(crate::proofs::CommonLaws::common_open))]
fn opening(
    variants: &[VariantRow],
    variant: Name,
    beginning: &Beginning<Name>,
) -> Result<Edit, Refusal>
    ensures { result ≡ opening variants.now variant beginning.now }
{
    match beginning {
        Beginning::Empty => Ok(Edit::NewVariant {
            variant,
            parent: None,
            depth: 1,
        }),
        Beginning::From(parent) => Ok(Edit::NewVariant {
            variant,
            parent: Some(*parent),
            depth: depth_below(variants, *parent)?,
        }),
        Beginning::Flat(from) => {
            allow_flat(variants, *from)?;
            Ok(Edit::NewFlat {
                variant,
                from: *from,
            })
        }
    }
}

// The first refusal of a variant that is opened flat from this one.
#[tactic(auto, unfolding(crate::proofs::CommonLaws::common_open))]
fn allow_flat(variants: &[VariantRow], from: Name) -> Result<(), Refusal>
    ensures { result ≡ allows_flat variants.now from }
{
    let row = find_variant(variants, from).ok_or(Refusal::NoVariant)?;
    if row.released {
        Ok(())
    } else {
        Err(Refusal::NotReleased)
    }
}

#[tactic(auto, unfolding(crate::proofs::CommonLaws::common_open))]
fn release(variants: &[VariantRow], variant: Name) -> Result<Edit, Refusal>
    ensures { result ≡ common_edit variants.now (CommonCommand.Release variant) }
{
    let row = find_variant(variants, variant).ok_or(Refusal::NoVariant)?;
    if row.released {
        return Err(Refusal::Released);
    }
    Ok(Edit::SetReleased { variant })
}

// The depth of a variant that is opened from this parent.
#[tactic(auto, unfolding(crate::proofs::CommonLaws::common_open))]
fn depth_below(variants: &[VariantRow], parent: Name) -> Result<u32, Refusal>
    ensures { result ≡ depth_after variants.now (Some parent) }
{
    let row = find_variant(variants, parent).ok_or(Refusal::NoVariant)?;
    if !row.released {
        return Err(Refusal::NotReleased);
    }
    if row.depth >= MAX_DEPTH {
        return Err(Refusal::TooDeep);
    }
    Ok(row.depth + 1)
}

/// The variant of this name, if it is one of these.
pub fn find_variant(variants: &[VariantRow], variant: Name) -> Option<&VariantRow>
    ensures { option_map (λ row. row.now) result ≡ row_of variants.now variant }
{
    variants.iter().find(|row| row.variant == variant)
}
