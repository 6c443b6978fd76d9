//! Slots for keys, by number. The number of a key that went is given again before a new one is.
ghost use Rattle.std.specs.Prelude.{◌≡◌, ℕ, ◌+◌, ◌-◌, ◌<◌, ◌≤◌, ◌^◌, Some, None, IsSome, length, option_copied, vec_len, vec_capacity};
ghost use Rattle.ifmap_pool.specs.Index.{slot_at, slot_count, WritesCount, Writes, AreFree};

// A key and how often it is held.
#[derive(Drop)]
pub(crate) struct HeldKey<K> {
    pub(crate) key: K,
    pub(crate) holds: u64,
}

// The key of a number, with its count; none where the number is free.
pub(crate) fn find_held<K>(slots: &[Option<HeldKey<K>>], number: u64) -> Option<&HeldKey<K>>
    ensures { option_copied result ≡ slot_at slots.now number }
{
    match slots.get(number as usize) {
        Some(slot) => slot.as_ref(),
        None => None,
    }
}

// The key of a live number, with its count.
pub(crate) fn slot_of_live<K>(slots: &[Option<HeldKey<K>>], number: u32) -> &HeldKey<K>
    requires { IsSome (slot_at slots.now number) }
    ensures { slot_at slots.now number ≡ Some result.now }
{
    match find_held(slots, u64::from(number)) {
        Some(held) => held,
        None => unreachable!(),
    }
}

// Writes the count of a live number.
pub(crate) fn set_holds<K>(slots: &mut Vec<Option<HeldKey<K>>>, number: u32, holds: u64)
    requires { IsSome (slot_at slots.old.items number) }
    ensures items { WritesCount slots.old.items slots.new.items number holds }
    ensures len { vec_len slots.new ≡ vec_len slots.old }
    ensures capacity { vec_capacity slots.new ≡ vec_capacity slots.old }
{
    if let Some(held) = &mut slots[number as usize] {
        held.holds = holds;
    }
}

// Puts a key into an empty slot, and gives its number. There is room for it.
pub(crate) fn fill_slot<K: Drop>(
    slots: &mut Vec<Option<HeldKey<K>>>,
    free: &mut Vec<u32>,
    held: HeldKey<K>,
) -> u32
    requires free { AreFree slots.old.items free.old.items }
    requires room { slot_count slots.old.items < vec_capacity slots.old }
    requires few { slot_count slots.old.items < 2 ^ 32 }
    ensures vacant { slot_at slots.old.items result ≡ None }
    ensures writes { Writes slots.old.items slots.new.items result (Some held) }
    ensures free { AreFree slots.new.items free.new.items }
    ensures count { slot_count slots.new.items ≡ slot_count slots.old.items + 1 }
    ensures within { (limit : ℕ) → length slots.old.items ≤ limit
        → slot_count slots.old.items < limit → length slots.new.items ≤ limit }
    ensures slots_room { vec_capacity slots.new ≡ vec_capacity slots.old }
    ensures free_room { vec_capacity free.new ≡ vec_capacity free.old }
{
    match free.pop() {
        Some(number) => {
            slots[number as usize] = Some(held);
            number
        }
        None => {
            let number = slots.len() as u32;
            slots.push_reserved(Some(held));
            number
        }
    }
}

// Empties the slot of a live number, which is free then. There is room to note it.
pub(crate) fn empty_slot<K: Drop>(
    slots: &mut Vec<Option<HeldKey<K>>>,
    free: &mut Vec<u32>,
    number: u32,
)
    requires free { AreFree slots.old.items free.old.items }
    requires live { IsSome (slot_at slots.old.items number) }
    requires room { length slots.old.items ≤ vec_capacity free.old }
    ensures writes { Writes slots.old.items slots.new.items number None }
    ensures free { AreFree slots.new.items free.new.items }
    ensures count { slot_count slots.new.items + 1 ≡ slot_count slots.old.items }
    ensures len { length slots.new.items ≡ length slots.old.items }
    ensures slots_room { vec_capacity slots.new ≡ vec_capacity slots.old }
    ensures free_room { vec_capacity free.new ≡ vec_capacity free.old }
{
    slots[number as usize] = None;
    free.push_reserved(number);
}
