// Writing a sender's state.
ghost use Rattle.std.specs.Prelude.{◌++◌, ◌≡◌, ◌≤◌, length, drop};
ghost use Rattle.sketch.specs.Sums.{row_bytes};
ghost use Rattle.sender.specs.State.{settings_rows};

use tree::Settings;

// Writes the settings to the first five rows of the state.
pub fn write_settings(state: &mut [u8], settings: Settings)
    requires { 40 ≤ length state.old }
    ensures { state.new ≡ row_bytes (settings_rows settings) ++ drop 40 state.old }
{
    rows::store(state, 0, settings.window);
    rows::store(state, 1, settings.fan_out);
    rows::store(state, 2, settings.levels);
    rows::store(state, 3, settings.nominal);
    rows::store(state, 4, settings.width);
}
