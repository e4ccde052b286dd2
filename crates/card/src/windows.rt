// The doors of the window over the latest 1,024 accepted searches (document 02, U5). Each answers 2 for a wrong length, and then alters nothing.
ghost use Rattle.std.specs.Prelude.{◌≡◌};
ghost use Rattle.window.specs.Windows.{Written, clear_of, enter_of, remove_of, counts_of};

use memory::refusals::answer_number;

// The window holds no entry.
#[unsafe(no_mangle)]
pub extern "C" fn flow_window_clear(window: &mut [u16]) -> u32
    ensures { ◌≡◌ {A = Written} (record { number = result; area = window.new }) (clear_of window.old) }
{
    answer_number(window::clear(window))
}

// A search enters by the number and the three counts that its door gave.
#[unsafe(no_mangle)]
pub extern "C" fn flow_window_enter(window: &mut [u16], found: u64, counts: &[u32]) -> u32
    ensures { ◌≡◌ {A = Written} (record { number = result; area = window.new })
        (enter_of window.old found counts.now) }
{
    answer_number(window::enter(window, found, counts))
}

// The oldest entry is removed.
#[unsafe(no_mangle)]
pub extern "C" fn flow_window_remove(window: &mut [u16]) -> u32
    ensures { ◌≡◌ {A = Written} (record { number = result; area = window.new }) (remove_of window.old) }
{
    answer_number(window::remove(window))
}

// Held answers, searches that compared the side store, greatest records compared.
#[unsafe(no_mangle)]
pub extern "C" fn flow_window_counts(window: &[u16], counts: &mut [u32]) -> u32
    ensures { ◌≡◌ {A = Written} (record { number = result; area = counts.new })
        (counts_of window.now counts.old) }
{
    answer_number(window::counts(window, counts))
}
