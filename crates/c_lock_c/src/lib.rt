// c_lock's join and number as C functions: the lock's archive. A slice is handed over as a pointer and
// a length. No function asks anything of its caller, as none there does.
#![tactic(auto)]

ghost use Rattle.std.specs.Prelude.{◌≡◌};
ghost use Rattle.c_lock.specs.Host.{label, c_join, c_last};

// 0 or 1, or 100 plus the refusal's number. Party 0's answer comes first.
#[unsafe(no_mangle)]
pub extern "C" fn lock_join(
    name: &[u8],
    last: u64,
    kind0: u32,
    name0: &[u8],
    sender0: u32,
    number0: u64,
    answer0: u32,
    kind1: u32,
    name1: &[u8],
    sender1: u32,
    number1: u64,
    answer1: u32,
) -> u32
    ensures { result ≡ c_join name.now last (label kind0 sender0 number0)
        name0.now answer0 (label kind1 sender1 number1) name1.now answer1 }
{
    c_lock::lock_join(
        name, last, kind0, name0, sender0, number0, answer0, kind1, name1, sender1, number1,
        answer1,
    )
}

// The lock's last number after that join: the joined one, or where it was refused the one handed in.
#[unsafe(no_mangle)]
pub extern "C" fn lock_last(
    name: &[u8],
    last: u64,
    kind0: u32,
    name0: &[u8],
    sender0: u32,
    number0: u64,
    answer0: u32,
    kind1: u32,
    name1: &[u8],
    sender1: u32,
    number1: u64,
    answer1: u32,
) -> u64
    ensures { result ≡ c_last name.now last (label kind0 sender0 number0)
        name0.now answer0 (label kind1 sender1 number1) name1.now answer1 }
{
    c_lock::lock_last(
        name, last, kind0, name0, sender0, number0, answer0, kind1, name1, sender1, number1,
        answer1,
    )
}
