// Numbers and lists of a payload, lowest byte first. What lies past its end reads as 0, so a case that is cut
// off is answered by what there is of it, and no function here asks anything of its caller.
ghost use Rattle.std.specs.Prelude.{◌≡◌, min, length, take, drop, replicate};
ghost use Rattle.hall.specs.Floor.{network_of, network_in};
ghost use Rattle.try_batch.specs.Payloads.{byte_in, short_in, long_in, shorts_in, shorts_over};
ghost use Rattle.try_batch.specs.Payloads.{list_room, job_room, list_in, behind_list, body_in};

use hall::Network;

// So many places has the room for a list of nodes: the most that two bytes can count.
pub const LIST_ROOM: usize = 65535;

// And for a list of a job: lane numbers, closed nodes, moves, an order.
pub const JOB_ROOM: usize = 16384;

// An array that is the same throughout. A caller's proof has the length of an array that is returned from its
// type; that of a literal it counts place by place, in every function that has one.
pub fn filled<T: Copy, const N: usize>(value: T) -> [T; N]
    ensures { result ≡ replicate N value }
{
    [value; N]
}

// Room for a list of nodes.
pub fn list_room() -> [u16; LIST_ROOM]
    ensures { result ≡ replicate list_room 0 }
{
    filled(0)
}

// Room for a list of a job.
pub fn job_room() -> [u16; JOB_ROOM]
    ensures { result ≡ replicate job_room 0 }
{
    filled(0)
}

fn byte_at(s: &[u8], at: usize) -> u8
    ensures { result ≡ byte_in s.now at }
{
    s.get(at).copied().unwrap_or(0)
}

// The payload from a place on, where a list or a text begins.
pub fn rest(s: &[u8], at: usize) -> &[u8]
    ensures { result.now ≡ drop at s.now }
{
    &s[at.min(s.len())..]
}

// The u16 at a place.
pub fn short_at(s: &[u8], at: usize) -> u16
    ensures { result ≡ short_in s.now at }
{
    let part = rest(s, at);
    u16::from_le_bytes([byte_at(part, 0), byte_at(part, 1)])
}

// The u32 at a place.
pub fn long_at(s: &[u8], at: usize) -> u32
    ensures { result ≡ long_in s.now at }
{
    let part = rest(s, at);
    u32::from_le_bytes([
        byte_at(part, 0),
        byte_at(part, 1),
        byte_at(part, 2),
        byte_at(part, 3),
    ])
}

// The front of a list, as much as `count` says and there is.
pub fn front<T>(list: &[T], count: usize) -> &[T]
    ensures { result.now ≡ take count list.now }
{
    &list[..count.min(list.len())]
}

// Loads the first numbers, as many as `count` says and the list has room for.
fn load(s: &[u8], count: usize, list: &mut [u16])
    ensures { list.new ≡ shorts_over s.now count list.old }
{
    for i in 0..count.min(list.len()) {
        list[i] = short_at(s, 2 * i);
    }
}

// The first numbers, in the room that is lent for them. The answer is the front of the room; a room that is
// lent on in an answer is one of which no contract can say what it holds at the end.
fn loaded<'a>(s: &[u8], count: usize, room: &'a mut [u16]) -> &'a [u16]
    ensures { result.now ≡ shorts_in s.now (min count (length room.old)) }
{
    load(s, count, room);
    front(room, count)
}

// A list that stands at the front.
pub fn loaded_list<'a>(s: &[u8], room: &'a mut [u16]) -> &'a [u16]
    ensures { result.now ≡ list_in s.now (length room.old) }
{
    loaded(rest(s, 2), short_at(s, 0) as usize, room)
}

// What stands behind a list.
pub fn behind_list(s: &[u8]) -> &[u8]
    ensures { result.now ≡ behind_list s.now }
{
    let count = short_at(s, 0) as usize;
    rest(s, 2 + 2 * count)
}

// The network at the front of a job from numbers, its lists in the rooms that are lent for them.
pub fn loaded_network<'a>(
    job: &[u8],
    lane_room: &'a mut [u16],
    closed_room: &'a mut [u16],
) -> Network<'a>
    ensures { network_in result ≡ network_of
        (long_in job.now 0)
        (list_in (drop 4 job.now) (length lane_room.old))
        (list_in (behind_list (drop 4 job.now)) (length closed_room.old)) }
{
    let lists = rest(job, 4);
    Network {
        nodes: long_at(job, 0) as usize,
        lanes: loaded_list(lists, lane_room),
        closed: loaded_list(behind_list(lists), closed_room),
    }
}

// What stands behind that network: the moves, the order and the dwell of its job.
pub fn behind_network(job: &[u8]) -> &[u8]
    ensures { result.now ≡ behind_list (behind_list (drop 4 job.now)) }
{
    behind_list(behind_list(rest(job, 4)))
}

// What stands behind a job from numbers, its dwell too: records, or a floor book.
pub fn behind_job(job: &[u8]) -> &[u8]
    ensures { result.now ≡ drop 4
        (behind_list (behind_list (behind_list (behind_list (drop 4 job.now))))) }
{
    rest(behind_list(behind_list(behind_network(job))), 4)
}

// What stands behind a payload's four numbers and two lists: a text, or a job from numbers.
pub fn body(s: &[u8]) -> &[u8]
    ensures { result.now ≡ body_in s.now }
{
    behind_list(behind_list(rest(s, 8)))
}
