// Packing 1 read: packs of 5 opened to a string, in place (001, 4.1.1, figures 4 and 7; document 01, "Numbers given back", 13 to 16). Where the
// user bytes lie in an area is no concern of theirs. Quotations are from document 01.
// The bytes, a place and where the packs end stay three parameters: a packet is opened in the same bytes, so that a struct of the three would be
// made anew for each call.
#![tactic(auto)]

ghost use Rattle.std.specs.Prelude.{◌≡◌, true, false, cond, ◌&&◌, ◌+◌, ◌-◌, ◌%◌, ◌≤◌, ◌<◌, eqb, ltb, leb, length, get_or, take, drop};
ghost use Rattle.rules.specs.Base.{all_is};
ghost use Rattle.rules.specs.Reading.{in_order};
ghost use Rattle.rules.specs.Systems.{System};
ghost use Rattle.unpacking1.specs.Open.{
  packs_at,
  SameOrder,
  CarriersOpened,
  PacksEnd,
  PacketOpened,
  Within,
  order_first,
  placed,
  order_before,
  end_answer,
  Opens,
  packets_of_packs,
  packets_of_fives,
};

use danc::Validated;
use frame::{Line, wide};
use rules::{Refusal, Refused};

// Where the carriers end that stand from `at` on, if any do. Behind a carrier a carrier, a starter and fill may stand: a run of them
// needs no more than this loop.
fn carriers_end(us: &[u8; 9360], at: usize, total: usize) -> usize
    requires { Within us.now at total }
    ensures { SameOrder us.now at total result }
{
    let mut end = at;
    while end < total && us[end] == 0xE2 {
        end += 5;
    }
    end
}

// "every pack is a starter, a carrier or five FFh", and "nothing but fill follows fill"
#[cycle(carrier_starter)]
fn starter(us: &[u8; 9360], at: usize, total: usize) -> bool
    requires { Within us.now at total }
    ensures { result ≡ in_order false (packs_at us.now at total) }
{
    if at == total {
        return true;
    }
    match us[at] {
        0xE2 => starter(us, at + 5, total),
        0xE1 => carrier(us, at + 5, total),
        _ => danc::all_fill(&us[at..total]),
    }
}

// "each starter has a carrier after it"
#[cycle(carrier_starter)]
fn carrier(us: &[u8; 9360], at: usize, total: usize) -> bool
    requires { Within us.now at total }
    ensures { result ≡ in_order true (packs_at us.now at total) }
{
    if at == total || us[at] != 0xE2 {
        return false;
    }
    starter(us, carriers_end(us, at + 5, total), total)
}

// Where the packs end of the packet that starts at `at`, none for 14: "a starter's carriers are not exactly as many as its DC needs".
// Whether the packs between are carriers is seen when they are opened.
fn packs_end(us: &[u8], at: usize, total: usize) -> Option<usize>
    requires { Within us.now at total × (at < total) }
    ensures { PacksEnd us.now at total result }
{
    if us[at] != 0xE1 || total < at + 10 {
        return None;
    }
    let stop = at + 10 + (wide(us[at + 8]) + 3) / 4 * 5;
    if total < stop || stop < total && us[stop] == 0xE2 {
        return None;
    }
    Some(stop)
}

// The bytes of the carriers from `from` to `stop`, moved down to `to`. The answer is where it ends: `stop`, or the first pack that is no carrier.
// From there on all is as it was.
fn open_carriers(us: &mut [u8], from: usize, stop: usize, to: usize) -> usize
    requires { Within us.old from stop × (to ≤ from) }
    ensures { CarriersOpened us.old us.new from stop to result }
{
    let mut read = from;
    let mut written = to;
    while read < stop && us[read] == 0xE2 {
        let carried = [us[read + 1], us[read + 2], us[read + 3], us[read + 4]];
        us[written..written + 4].copy_from_slice(&carried);
        read += 5;
        written += 4;
    }
    read
}

// "the unused bytes are not FFh": they are three at most, and looked at one by one, without a loop's start.
fn unused_are_fill(us: &[u8], end: usize, full: usize) -> bool
    requires { (end ≤ full) × (full ≤ end + 3) × (full ≤ length us.now) }
    ensures { result ≡ all_is 0xFF (take (full - end) (drop end us.now)) }
{
    matches!(
        &us[end..full],
        [] | [0xFF] | [0xFF, 0xFF] | [0xFF, 0xFF, 0xFF]
    )
}

// 13 before 14: what a packet that does not pass 14 is refused for, by whether the packs from a place on are in order.
fn order_refusal(us: &[u8; 9360], at: usize, total: usize) -> Refusal
    requires { Within us.now at total }
    ensures { result ≡ order_first (in_order false (packs_at us.now at total)) }
{
    if starter(us, at, total) {
        return Refusal::Length;
    }
    Refusal::Packs
}

// The same behind the starter before `first`, whose carriers end at `at`, where they should not: there has to be one.
fn carriers_refusal(us: &[u8; 9360], first: usize, at: usize, total: usize) -> Refusal
    requires { Within us.now at total }
    ensures { result ≡ cond (eqb at first) Refusal.Packs (order_first (in_order false (packs_at us.now at total))) }
{
    if at == first {
        return Refusal::Packs;
    }
    order_refusal(us, at, total)
}

// The packet that starts at `at`, from header byte 0 on, moved down to `to`: where its packs end, or 14, or 13 in its place, where the packs from
// `at` on are not in order. So the packs of a packet are looked at once, and only where one does not pass 14 the two readers read on from there.
// The unused bytes stand from `end`, the packet's, to `full`, where the bytes of its carriers end, four in each.
fn open_packet(us: &mut [u8; 9360], at: usize, total: usize, to: usize) -> Result<usize, Refusal>
    requires { Within us.old at total × (at < total) × (to ≤ at) }
    ensures { PacketOpened us.old us.new at total to result }
{
    let Some(stop) = packs_end(us, at, total) else {
        return Err(order_refusal(us, at, total));
    };
    let dc = wide(us[at + 8]);
    let end = to + dc + 7;
    let full = to + (dc + 3) / 4 * 4 + 7;
    let header = [us[at + 2], us[at + 3], us[at + 4]];
    us[to..to + 3].copy_from_slice(&header);
    let reached = open_carriers(us, at + 5, stop, to + 3);
    if reached != stop {
        return Err(carriers_refusal(us, at + 5, reached, total));
    }
    if !unused_are_fill(us, end, full) {
        return Err(order_refusal(us, stop, total));
    }
    Ok(stop)
}

// Whether a packet starts at a place.
fn starts(us: &[u8; 9360], at: usize, total: usize) -> bool
    requires { total ≤ length us.now }
    ensures { result ≡ (ltb at total && eqb (get_or us.now at 0) 0xE1) }
{
    at < total && us[at] == 0xE1
}

// 13 is of all packs.
const WRONG_ORDER: Refused = Refused {
    refusal: Refusal::Packs,
    place: 0,
    word: 0,
};

// What is told of packet k, which does not pass 14.
fn placed(refusal: Refusal, k: usize) -> Refused
    ensures { result ≡ placed refusal k }
{
    if refusal == Refusal::Packs {
        return WRONG_ORDER;
    }
    Refused {
        refusal,
        place: k,
        word: 0,
    }
}

// 13 before a packet's own fault: that fault, unless the packs from a place on are not in order.
fn refused(us: &[u8; 9360], at: usize, total: usize, fault: Refused) -> Refused
    requires { Within us.now at total }
    ensures { result ≡ order_before (in_order false (packs_at us.now at total)) fault }
{
    if starter(us, at, total) {
        return fault;
    }
    WRONG_ORDER
}

// Where no packet starts: fill to the end, behind the packets that were opened; else 13, or 14 of carriers without a starter.
fn ended(us: &[u8; 9360], at: usize, total: usize, opened: Validated) -> Result<Validated, Refused>
    requires { Within us.now at total }
    ensures { result ≡ end_answer (packs_at us.now at total) opened }
{
    if !starter(us, at, total) {
        return Err(WRONG_ORDER);
    }
    if at < total && us[at] == 0xE2 {
        return Err(placed(Refusal::Length, opened.packets));
    }
    Ok(opened)
}

// 13, then "packet by packet 5 (only a [1,276th]), 14, 15, 16": packs opened to a string. A packet takes two packs at least, so that there are
// 936 at most, and 5 is never given. Whether the packs are in order is seen on the way: "After a starter only carriers stand, until the packet's
// last byte; then a starter or fill follows".
fn open_packets(last: Line, us: &mut [u8; 9360], total: usize) -> Result<Validated, Refused>
    requires { Within us.old 0 total }
    ensures { (y : System) → y.last ≡ last.0 → Opens y (packets_of_packs y (packs_at us.old 0 total)) result us.new }
{
    let lines = frame::lines_of(last);
    let mut read = 0;
    let mut written = 0;
    let mut packets = 0;
    while starts(us, read, total) {
        let next = match open_packet(us, read, total, written) {
            Ok(next) => next,
            Err(refusal) => return Err(placed(refusal, packets)),
        };
        let end = written + wide(us[written + 5]) + 7;
        if let Err(fault) = danc::judged(&lines, last, us, end, written, packets) {
            return Err(refused(us, next, total, fault));
        }
        read = next;
        written = end;
        packets += 1;
    }
    let end = written;
    ended(us, read, total, Validated { packets, end })
}

// Whether these are packs of 5, and all of them there.
fn whole(us: &[u8], total: usize) -> bool
    ensures { result ≡ (leb total (length us.now) && eqb (total % 5) 0) }
{
    total <= us.len() && total % 5 == 0
}

// The packs of 5 in the first `total` of an area's user bytes, opened in place: the string then stands at their start.
// 13, then packet by packet: how many packets there are, and where their string ends.
pub fn open_fives(last: Line, us: &mut [u8; 9360], total: usize) -> Result<Validated, Refused>
    ensures { (y : System) → y.last ≡ last.0 → Opens y (packets_of_fives y us.old total) result us.new }
{
    if !whole(us, total) {
        return Err(WRONG_ORDER);
    }
    open_packets(last, us, total)
}
