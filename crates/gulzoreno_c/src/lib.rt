// The function of the crate gulzoreno as a host in C calls it.
#![tactic(auto)]

ghost use Rattle.std.specs.Prelude.{◌≡◌};
ghost use Rattle.model.specs.Split.{caps_of};
ghost use Rattle.gulzoreno.specs.Host.{bipartition_code, bipartition_parts, bipartition_figures};

// Splits a pattern under cap 0 and cap 1 within a budget of tries. Answers 0 with the parts and the figures (volume, tries, floor, complete)
// written, or 255 for "none yet", or a refusal as number + 256 × place; with the last two nothing is written.
#[unsafe(no_mangle)]
pub extern "C" fn gulzoreno_bipartition(
    m: u64,
    n: u64,
    nonzeros: u64,
    list: &[u8],
    cap0: u64,
    cap1: u64,
    budget: u64,
    parts: &mut [u8],
    figures: &mut [u8],
) -> u64
    ensures answer { result ≡ bipartition_code m n nonzeros list.now (caps_of cap0 cap1) budget parts.old figures.old }
    ensures parts { parts.new ≡ bipartition_parts m n nonzeros list.now (caps_of cap0 cap1) budget parts.old figures.old }
    ensures figures { figures.new ≡ bipartition_figures m n nonzeros list.now (caps_of cap0 cap1) budget parts.old figures.old }
{
    gulzoreno::gulzoreno_bipartition(m, n, nonzeros, list, cap0, cap1, budget, parts, figures)
}
