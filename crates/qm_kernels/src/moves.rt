//! The letters that only move entries, whatever these are.
ghost use Rattle.std.specs.Prelude.{◌≡◌, ◌≢◌, ℕ, ◌<◌, ◌^◌, length};
ghost use Rattle.qm_zomega.specs.NumberLists.{IsListBy};
ghost use Rattle.qm_denot.specs.Places.{HasPlace};
ghost use Rattle.qm_denot.specs.LettersByPlace.{flip_at, keep_at, cross_at};
ghost use Rattle.qm_kernels.specs.Done.{IsMoved, IsExchanged};

use crate::blocks::{half_block, on_blocks};
use crate::steps::{Clear, Exchange, FlipUpper, Swap};

/// Writes the value into each entry.
pub(crate) fn clear<Z: Copy>(list: &mut [Z], value: Z)
    ensures size { length list.new ≡ length list.old }
    ensures cleared { (past : Z) → IsListBy (λ x. x) past list.new (length list.old) (λ i. value) }
{
    for i in 0..list.len() {
        list[i] = value;
    }
}

/// Exchanges the entries of two lists where they have the bit of a place.
pub(crate) fn exchange<Z>(one: &mut [Z], other: &mut [Z], place: u32)
    requires same { length other.old ≡ length one.old }
    requires place { HasPlace (length one.old) place }
    ensures one { IsExchanged place one.old other.old one.new }
    ensures other { IsExchanged place other.old one.old other.new }
{
    let half = half_block(one.len(), place);
    let mut start = 0;
    while start < one.len() {
        let (_, rest) = one.split_at_mut(start + half);
        let (part, _) = rest.split_at_mut(half);
        let (_, other_rest) = other.split_at_mut(start + half);
        let (other_part, _) = other_rest.split_at_mut(half);
        part.swap_with_slice(other_part);
        start += 2 * half;
    }
}

/// `Flip` on a place.
pub fn flip<Z>(list: &mut [Z], place: u32)
    requires { HasPlace (length list.old) place }
    ensures size { length list.new ≡ length list.old }
    ensures moved { IsMoved (flip_at place) list.old list.new }
{
    let half = half_block(list.len(), place);
    on_blocks(&Swap { place }, list, half);
}

/// `Keep` on a place.
pub fn keep<Z: Copy>(list: &mut [Z], place: u32, m: bool, zero: Z)
    requires { HasPlace (length list.old) place }
    ensures size { length list.new ≡ length list.old }
    ensures moved { IsMoved (keep_at zero place m) list.old list.new }
{
    let step = Clear {
        place,
        kept: m,
        zero,
    };
    let half = half_block(list.len(), place);
    on_blocks(&step, list, half);
}

/// `Cx` on a control and a target.
pub fn cross<Z>(list: &mut [Z], control: u32, target: u32)
    requires control { HasPlace (length list.old) control }
    requires target { HasPlace (length list.old) target }
    requires distinct { control ≢ target }
    ensures size { length list.new ≡ length list.old }
    ensures moved { IsMoved (cross_at control target) list.old list.new }
{
    if target < control {
        let half = half_block(list.len(), control);
        on_blocks(&FlipUpper { control, target }, list, half);
    } else {
        let half = half_block(list.len(), target);
        on_blocks(&Exchange { control, target }, list, half);
    }
}
