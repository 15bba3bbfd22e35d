// ChaCha20 blocks in one pass, four or eight of them: nearly all of the time of a door check goes here.
#![tactic(auto)]

ghost use Rattle.std.specs.Prelude.{◌≡◌, map, get_or, ◌/◌};
ghost use Rattle.base_algebra.specs.Word.{add};
ghost use Rattle.base_words.specs.List.{tab};
ghost use Rattle.chacha20_rounds.specs.Rounds.{double_round, block_from};
ghost use Rattle.chacha20_lanes.specs.Lanes.{rows};

// A double round on each of the states. LLVM vectorises this loop.
fn double_rounds<const W: usize>(x: &mut [u32; W])
    ensures { rows (W / 16) x.new ≡ map double_round (rows (W / 16) x.old) }
{
    for l in 0..W / 16 {
        let s = chacha20_lanes::lane(x, l);
        chacha20_lanes::set_lane(
            x,
            l,
            chacha20_rounds::diagonal_round(chacha20_rounds::column_round(s)),
        );
    }
}

fn add_words<const W: usize>(x: &mut [u32; W], y: &[u32; W])
    ensures { x.new ≡ tab (λ i. add (get_or x.old i 0) (get_or y.now i 0)) W }
{
    for i in 0..W {
        x[i] = base_words::add(x[i], y[i]);
    }
}

// Starting states, of any keys, counters and nonces, become their blocks.
pub fn blocks<const W: usize>(x: &mut [u32; W])
    ensures { rows (W / 16) x.new ≡ map block_from (rows (W / 16) x.old) }
{
    let mut y = *x;
    for _ in 0..10u32 {
        double_rounds(&mut y);
    }
    add_words(x, &y);
}
