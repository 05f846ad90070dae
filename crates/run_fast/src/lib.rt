// The fast path through a run: an instruction is decoded once and its page translated once, as long as the mode, the CSRs and the map stay as they
// are. What is known of the word at an address stands in a memo of 4,096 entries, by the address; a hit asks for nothing but the address. A store
// into a frame that a word was taken from empties the entries of its own words.
//
// The memo and the remembered pages are locals of `steps`, which has one setting: where that changes it has ended, and what was remembered is gone.
#![tactic(auto)]

ghost use Rattle.std.specs.Prelude.{true, false, IfSome, None, List, ◌≡◌, ℕ, ◌+◌, ◌/◌, ◌%◌, ◌^◌, ◌<◌, ◌≤◌, length, get_or, set};
ghost use Rattle.word.specs.Sum.{sum_of};
ghost use Rattle.decode.specs.Decode.{decode_of};
ghost use Rattle.memory.specs.Bytes.{load_of};
ghost use Rattle.isa.specs.Mode.{mode_of};
ghost use Rattle.step_effect.specs.Register.{reg_of, put_of};
ghost use Rattle.csr_setting.specs.declared.Setting as setting;
ghost use Rattle.step_meaning.specs.Instruction.{next_of, execute_of};
ghost use Rattle.csr_words.specs.Words.{◌of◌, MODE};
ghost use Rattle.run_csrs.specs.Handler.{Handles};
ghost use Rattle.step_meaning.specs.declared.Source.TheVariants.{Fetch};
ghost use Rattle.csr_words.specs.Setting.{setting_of};
ghost use Rattle.step_hart.specs.Hart.{hart};
ghost use Rattle.step_hart.specs.Run.{run_from, Midway};
ghost use Rattle.run_form.specs.Form.{Means};
ghost use Rattle.run_turn.specs.Glide.{Straight, Glides};
ghost use Rattle.run_fast.specs.Memo.{slot_of, Read, Fewer, Clear, AllClear, Emptied};

use address::Virtual;
use address_place::steps::fetch;
use csr_setting::Setting;
use csr_words::{COUNT as WORDS, ELP, PC, setting};
use decode::{plain, privileged};
use run_form::{Form, Op};
use run_pages::COUNT as PAGES;
use run_turn::Glided;
use word::sum;

// How many entries the memo has, and how many frames memory has at most.
const COUNT: usize = 4096;

const FRAMES: usize = 256;

// What is known of the word at an address: its form, whose parts stand here so that an entry has 24 bytes (the memo is a local, and
// include/sporhulma.h says how much stack a run needs), and where it stands in memory.
#[derive(Clone, Copy)]
pub struct Entry {
    pub pc: u64,
    pub value: u64,
    pub at: u32,
    pub op: Op,
    pub rd: u8,
    pub rs1: u8,
    pub rs2: u8,
}

// An empty entry: its address is no multiple of 4, so that no word has it. Its bytes are alike, so that the memo is cleared by one fill (1 is the byte
// of the second form). Measured: an Option in its place takes 1 to 5 in 100 more (docs/SPEED.md).
const EMPTY: Entry = Entry {
    pc: 0x0101_0101_0101_0101,
    value: 0x0101_0101_0101_0101,
    at: 0x0101_0101,
    op: Op::Sub,
    rd: 1,
    rs1: 1,
    rs2: 1,
};

// A word's form. A privileged one has none, so that it need not be decoded.
fn of_word(w: u32, pc: u64, s: Setting) -> Form
    ensures means { Means result (decode_of w) w pc s }
    ensures small { (result.rd < 32) × (result.rs1 < 32) × (result.rs2 < 32) }
{
    if privileged(w) {
        return run_form::left();
    }
    run_form::formed(plain(w), pc, s)
}

// The entry of an address, if a fetch there has a place.
fn read(pc: u64, s: Setting, mem: &[u8], map: &[u64]) -> Option<Entry>
    requires { length mem.now ≤ 2 ^ 20 }
    ensures { IfSome result (λ e. (e.at < 2 ^ 20) × (e.pc ≡ pc) × Read e s mem.now map.now) }
{
    let c = s.control;
    match fetch(c, Virtual(pc), map, mem) {
        Ok(q) => {
            let at = q.index();
            let f = of_word(memory::word(mem, at), pc, s);
            Some(Entry {
                pc,
                value: f.value,
                at: at as u32,
                op: f.op,
                rd: f.rd,
                rs1: f.rs1,
                rs2: f.rs2,
            })
        }
        Err(_) => None,
    }
}

// Reads the word at pc into its entry, and marks its frame as one that a word was taken from. Where a fetch has no place, both stay.
fn enter(
    entries: &mut [Entry; COUNT],
    frames: &mut [bool; FRAMES],
    pc: u64,
    s: Setting,
    mem: &[u8],
    map: &[u64],
) -> Option<Entry>
    requires { length mem.now ≤ 2 ^ 20 }
    ensures read { IfSome result (λ e. (e.at < 2 ^ 20) × (e.pc ≡ pc) × Read e s mem.now map.now
        × (entries.new ≡ set entries.old (slot_of pc) e) × (frames.new ≡ set frames.old (e.at / 4096) true)) }
    ensures refused { result ≡ None → (entries.new ≡ entries.old) × (frames.new ≡ frames.old) }
{
    let e = read(pc, s, mem, map)?;
    entries[(pc / 4 % 4096) as usize] = e;
    frames[(e.at / 4096) as usize] = true;
    Some(e)
}

// Entry k is emptied if its word is among these eight bytes.
fn clear(entries: &mut [Entry; COUNT], k: usize, eight: usize)
    requires { k < 4096 }
    ensures { Fewer entries.old entries.new × Clear entries.new k eight }
{
    if (entries[k].at / 8) as usize == eight {
        entries[k] = EMPTY;
    }
}

// An address and its place have the same offset in their page, so that the entries to look at are two in each quarter of the memo.
fn forget(entries: &mut [Entry; COUNT], eight: usize)
    ensures { Fewer entries.old entries.new × AllClear entries.new 4096 eight }
{
    for quarter in 0..4 {
        let first = quarter * 1024 + eight % 512 * 2;
        clear(entries, first, eight);
        clear(entries, first + 1, eight);
    }
}

// What a store empties: where no word was taken from the frame, nothing.
fn empty(entries: &mut [Entry; COUNT], frames: &[bool; FRAMES], stored: Option<usize>)
    requires { IfSome stored (λ at. at < 2 ^ 20) }
    ensures { Emptied entries.old frames.now stored entries.new }
{
    if let Some(at) = stored
        && frames[at / 4096]
    {
        forget(entries, at / 8);
    }
}

// The value of the register of this number.
fn value(x: &[u64; 32], n: u8) -> u64
    requires { n < 32 }
    ensures { result ≡ reg_of x.now n }
{
    x[n as usize]
}

// The sum that an entry is, and pc after it.
fn added(e: &Entry, x: &mut [u64; 32], pc: u64) -> u64
    requires { (e.now.rd < 32) × (e.now.rs1 < 32) × (e.now.rs2 < 32) }
    ensures sum { (result ≡ next_of pc)
        × (x.new ≡ put_of e.now.rd (sum_of (reg_of x.old e.now.rs1) (sum_of (reg_of x.old e.now.rs2) e.now.value)) x.old) }
    ensures small { (reg_of x.old e.now.rs2 < 2 ^ 64) × (e.now.value < 2 ^ 64) }
{
    let b = sum::sum(value(x, e.rs2), e.value);
    let v = sum::sum(value(x, e.rs1), b);
    run_act::computed(x, e.rd as usize, v, pc).unwrap().pc
}

// A trap handler's CSR instruction, whose word stands at this index.
fn handled(at: usize, mem: &[u8], x: &mut [u64; 32], w: &mut [u64; WORDS]) -> bool
    requires { at + 4 ≤ length mem.now }
    ensures { (pc ssp : ℕ) (s : setting.Setting) (m map : List ℕ) → s.control.mode ≡ mode_of (MODE of w.old)
        → Handles result (execute_of (decode_of (load_of mem.now at 4)) (load_of mem.now at 4) x.old pc ssp s m map)
        x.old w.old (next_of pc) x.new w.new }
{
    run_csrs::handle(memory::word(mem, at), x, w)
}

// As many steps as the forms take, from `start` on.
fn steps(
    x: &mut [u64; 32],
    w: &mut [u64; WORDS],
    start: u64,
    s: Setting,
    mem: &mut [u8],
    map: &[u64],
    budget: u64,
) -> Glided
    requires { (length mem.old ≤ 2 ^ 20) × Straight w.old × (s ≡ setting_of w.old) × (get_or x.old 0 0 ≡ 0) × (start % 4 ≡ 0) }
    ensures steps { Glides budget start x.old w.old mem.old map.now result x.new
        w.new mem.new }
    ensures words { setting_of w.new ≡ setting_of w.old }
{
    let mut entries = [EMPTY; COUNT];
    let mut frames = [false; FRAMES];
    let mut pages = [run_pages::EMPTY; PAGES];
    let mut pc = start;
    let mut left = budget;
    while 0 < left {
        let k = (pc / 4 % 4096) as usize;
        if entries[k].pc != pc {
            let Some(_) = enter(&mut entries, &mut frames, pc, s, mem, map) else {
                return Glided { pc, left };
            };
        }
        let e = &entries[k];
        // Asked before the jump that all others share, since sums are what programs do most, and the processor foresees a branch better than where
        // that jump goes (docs/SPEED.md).
        if matches!(e.op, Op::Add) {
            pc = added(e, x, pc);
            left = left - 1;
            continue;
        }
        match run_act::act(
            e.op,
            e.rd as usize,
            value(x, e.rs1),
            value(x, e.rs2),
            e.value,
            x,
            w,
            pc,
            s.control,
            mem,
            map,
            &mut pages,
        ) {
            Some(t) => {
                empty(&mut entries, &frames, t.stored);
                pc = t.pc;
            }
            None => {
                if !handled(entries[k].at as usize, mem, x, w) {
                    return Glided { pc, left };
                }
                pc = sum::sum(pc, 4);
            }
        }
        left = left - 1;
    }
    Glided { pc, left }
}

// Whether the fast path can begin: no landing pad is expected, register 0 is 0, and pc a multiple of 4.
fn open(elp: u64, zero: u64, pc: u64) -> bool
    ensures { result ≡ true → (elp ≡ 0) × (zero ≡ 0) × (pc % 4 ≡ 0) }
{
    elp == 0 && zero == 0 && pc % 4 == 0
}

// As many steps as the fast path takes, which clears its memo first; what is left of the budget.
pub fn fast(
    x: &mut [u64; 32],
    w: &mut [u64; WORDS],
    mem: &mut [u8],
    map: &[u64],
    budget: u64,
) -> u64
    requires { length mem.old ≤ 2 ^ 20 }
    ensures { Midway (run_from Fetch budget (hart x.old w.old) mem.old map.now) budget
        result Fetch (hart x.new w.new) mem.new map.now }
{
    let pc = w[PC];
    if open(w[ELP], x[0], pc) {
        let s = setting::setting(w);
        let g = steps(x, w, pc, s, mem, map, budget);
        w[PC] = g.pc;
        return g.left;
    }
    budget
}
