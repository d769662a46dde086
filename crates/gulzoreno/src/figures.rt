// The figures of the C function: four numbers, eight bytes each, lowest byte first. Bytes past the end of a slice are not written.
ghost use Rattle.std.specs.Prelude.{◌≡◌};
ghost use Rattle.gulzoreno.specs.Figures.{with_figure, with_figures};

use pattern::reading::put;

// Puts figure f, counted from 0.
#[tactic(auto, using(crate::proofs::Bytes::rest_first, crate::proofs::Bytes::rest_more, crate::proofs::Bytes::low_none, crate::proofs::Bytes::low_more, crate::proofs::Bytes::figure_written))]
fn put_figure(out: &mut [u8], f: u8, x: u64)
    ensures { out.new ≡ with_figure f x out.old }
{
    let at = 8 * usize::from(f);
    let mut rest = x;
    for i in 0..8 {
        put(out, at + i, (rest % 256) as u8);
        rest /= 256;
    }
}

// Puts volume, tries, floor and complete.
#[tactic(auto, using(crate::proofs::Bytes::figures_written, counting::proofs::Joined::from_bool_is), unfolding(model::specs::Calls::complete_number))]
pub(crate) fn put_figures(out: &mut [u8], volume: u64, tries: u64, floor: u64, complete: bool)
    ensures { out.new ≡ with_figures volume tries floor complete out.old }
{
    put_figure(out, 0, volume);
    put_figure(out, 1, tries);
    put_figure(out, 2, floor);
    put_figure(out, 3, u64::from(complete));
}
