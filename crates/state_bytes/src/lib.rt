// The receiver's state in lent bytes: 268 rows of 64 bits, most significant byte first. They are the settings, the session and the other
// numbers, then level and id of each place.
#![tactic(auto)]

ghost use Rattle.std.specs.Prelude.{◌≡◌, ◌≤◌, length};
ghost use Rattle.rows.specs.Rows.{words_of};
ghost use Rattle.state_bytes.specs.Bytes.{settings_from, places_from, state_in, place_rows, Rowed, Stores};

use copying::Waiting;
use state::Receiver;
use tree::Settings;

// How many bytes a state has.
const SIZE: usize = 2144;

// The settings, from the first five rows.
fn load_settings(bytes: &[u8]) -> Settings
    ensures { result ≡ settings_from (words_of bytes.now) }
{
    let window = rows::load(bytes, 0);
    let fan_out = rows::load(bytes, 1);
    let levels = rows::load(bytes, 2);
    let nominal = rows::load(bytes, 3);
    let width = rows::load(bytes, 4);
    Settings {
        window,
        fan_out,
        levels,
        nominal,
        width,
    }
}

// The places, from the rows after the first twelve.
fn load_places(bytes: &[u8]) -> [Waiting; 128]
    ensures { result ≡ places_from (words_of bytes.now) 128 0 }
{
    let mut pile = [Waiting { level: 0, id: 0 }; 128];
    for k in 0..128 {
        let level = rows::load(bytes, 12 + k * 2);
        let id = rows::load(bytes, 13 + k * 2);
        pile[k] = Waiting { level, id };
    }
    pile
}

// The state that is held in bytes, whatever they are. Fewer than 2,144 hold the state of zeros.
pub fn load(bytes: &[u8]) -> Receiver
    ensures { result ≡ state_in bytes.now }
{
    if bytes.len() < SIZE {
        let settings = Settings {
            window: 0,
            fan_out: 0,
            levels: 0,
            nominal: 0,
            width: 0,
        };
        return state::initial(settings, 0);
    }
    let settings = load_settings(bytes);
    let session = rows::load(bytes, 5);
    let phase = rows::load(bytes, 6);
    let size = rows::load(bytes, 7);
    let root = rows::load(bytes, 8);
    let built = rows::load(bytes, 9);
    let taken = rows::load(bytes, 10);
    let waiting = rows::load(bytes, 11) as usize;
    let pile = load_places(bytes);
    Receiver {
        settings,
        session,
        phase,
        size,
        root,
        built,
        taken,
        waiting,
        pile,
    }
}

// Writes numbers into the first rows.
fn store_head(bytes: &mut [u8], head: [u64; 12])
    requires { 96 ≤ length bytes.old }
    ensures { Rowed bytes.old bytes.new head }
{
    for (k, number) in head.iter().enumerate() {
        rows::store(bytes, k, *number);
    }
}

// Writes level and id of each place into the first rows of a part.
fn store_places(part: &mut [u8], pile: [Waiting; 128])
    requires { 2048 ≤ length part.old }
    ensures { Rowed part.old part.new (place_rows pile) }
{
    for (k, place) in pile.iter().enumerate() {
        rows::store(part, k * 2, place.level);
        rows::store(part, k * 2 + 1, place.id);
    }
}

// Writes the state to the front of the bytes. Bytes after it are untouched, and fewer than 2,144 bytes are left as they are.
pub fn store(bytes: &mut [u8], state: Receiver)
    ensures { Stores bytes.old bytes.new state }
{
    if bytes.len() < SIZE {
        return;
    }
    let settings = state.settings;
    let waiting = state.waiting as u64;
    let head = [
        settings.window,
        settings.fan_out,
        settings.levels,
        settings.nominal,
        settings.width,
        state.session,
        state.phase,
        state.size,
        state.root,
        state.built,
        state.taken,
        waiting,
    ];
    let pile = state.pile;
    store_head(bytes, head);
    store_places(&mut bytes[96..], pile);
}
