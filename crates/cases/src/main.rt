// The listings of stored inputs: a folder of data/ each, written by tools/cases with what is to be printed.
#![tactic(auto)]

ghost use Rattle.std.specs.Prelude.{◌≡◌, length};
ghost use Rattle.cases.specs.Paths.{path_of};

use std::io;

// Room for the longest path, and its end.
const PATH_MOST: usize = 4096;

// The path of a file in a folder, made in a buffer; empty where the buffer is too short.
fn join<'a>(folder: &str, file: &str, path: &'a mut [u8]) -> &'a [u8]
    ensures { result.now ≡ path_of (length path.old) folder.now file.now }
{
    let n = folder.len();
    let end = n + file.len();
    if path.len() < end {
        return &[];
    }
    path[..n].copy_from_slice(folder.as_bytes());
    path[n..end].copy_from_slice(file.as_bytes());
    &path[..end]
}

// Writes out a title line and the listing of a folder at a hook limit. (Three writes for the title: by `println!`, which makes one,
// other bytes are out where the output takes a write whole or not at all.)
fn show(rt: &HostRuntime, limit: u8, folder: &str) -> io::Result<()> {
    rt.write_all(b"# ")?;
    rt.write_all(folder.as_bytes())?;
    rt.write_all(b"\n")?;
    let mut program = [0u8; PATH_MOST];
    let mut log = [0u8; PATH_MOST];
    let program = join(folder, "/knit.prg", &mut program);
    let log = join(folder, "/swap.log", &mut log);
    let mut text = [0u8; listing_text::LONGEST];
    let n = listing_text::list_files_at(rt, limit, program, log, &mut text);
    rt.write_all(&text[..n])
}

// The same of each hook limit and folder.
fn show_all(rt: &HostRuntime, cases: &[(u8, &str)]) -> io::Result<()> {
    for (limit, folder) in cases {
        show(rt, *limit, folder)?;
    }
    Ok(())
}

// Missing files, and files at and over their limits. (2, no bench, cannot happen: LentIsEnough of crate listing_text.)
fn files(rt: &HostRuntime) -> io::Result<()> {
    show_all(
        rt,
        &[
            (8, "empty"),
            (8, "missing"),
            (8, "no_log"),
            (8, "no_program"),
            (8, "longest_program"),
            (8, "program_too_long"),
            (8, "longest_log"),
            (8, "log_too_long"),
        ],
    )
}

// The pieces to try of document 01, from 2 on.
fn pieces(rt: &HostRuntime) -> io::Result<()> {
    show_all(
        rt,
        &[
            (8, "rackings"),
            (8, "rack_09"),
            (8, "rack_f7"),
            (8, "drop_249"),
            (8, "drop_250"),
            (8, "elsewhere"),
            (8, "opposite"),
            (8, "not_opposite"),
            (8, "eight_tucks"),
            (8, "nine_tucks"),
            (8, "float_20"),
            (8, "float_21"),
            (8, "p"),
            (8, "p_tied"),
            (8, "one_carrier"),
            (8, "beside_xfer"),
            (8, "under_xfer"),
            (8, "no_pair"),
            (8, "torn"),
            (8, "kind_00"),
            (8, "bytes_08_01"),
        ],
    )
}

// Further refusals of a program.
fn refusals(rt: &HostRuntime) -> io::Result<()> {
    show_all(
        rt,
        &[
            (8, "kind_0c"),
            (8, "cut_split"),
            (8, "cut_before_field"),
            (8, "direction_02"),
            (8, "bed_02"),
            (8, "carrier_00"),
            (8, "carrier_0b"),
            (8, "other_needle_250"),
            (8, "field_before_not_in"),
            (8, "already_in"),
            (8, "not_in"),
            (8, "not_in_again"),
            (8, "parked_at_rack"),
            (8, "float_racked"),
            (8, "split_not_opposite"),
            (8, "xfer_full"),
        ],
    )
}

// What a state's listing shows.
fn states(rt: &HostRuntime) -> io::Result<()> {
    show_all(
        rt,
        &[
            (8, "sides"),
            (8, "ends"),
            (8, "ten_carriers"),
            (8, "negative"),
            (8, "slots_at_0"),
            (8, "last_slot"),
            (8, "split"),
            (8, "knit_over"),
            (8, "drop_attached"),
        ],
    )
}

// Swaps made and refused, by the log.
fn swaps(rt: &HostRuntime) -> io::Result<()> {
    show_all(
        rt,
        &[
            (8, "complete"),
            (8, "walk"),
            (8, "there_and_back"),
            (8, "tied_after_swaps"),
            (8, "no_pair_after_swap"),
            (8, "log_kind_41"),
            (8, "log_of_two_bytes"),
            (8, "position_258"),
            (8, "position_65535"),
            (8, "position_256"),
            (8, "program_before_log"),
        ],
    )
}

// Swaps made and refused, by the records.
fn ties(rt: &HostRuntime) -> io::Result<()> {
    show_all(
        rt,
        &[
            (8, "racked_tied"),
            (8, "racked_free"),
            (8, "next_column"),
            (8, "next_but_one"),
            (8, "drop_back"),
            (8, "drop_front"),
            (8, "miss_behind"),
            (8, "miss_before"),
            (8, "across_rack"),
            (8, "equal_records"),
        ],
    )
}

// Plated stitches of document 02, W1: done and refused.
fn plated(rt: &HostRuntime) -> io::Result<()> {
    show_all(
        rt,
        &[
            (8, "plated_knit"),
            (8, "plated_knit_left"),
            (8, "plated_onto_six"),
            (8, "plated_onto_seven"),
            (8, "plated_xfer"),
            (8, "plated_float_20"),
            (8, "second_not_in"),
            (8, "second_elsewhere"),
            (8, "second_float_21"),
            (8, "elsewhere_and_not_in"),
            (8, "float_and_elsewhere"),
            (8, "yarn_twice"),
            (8, "yarn_twice_ready"),
            (8, "carriers_00"),
            (8, "carriers_0b"),
            (8, "twice_at_needle_250"),
            (8, "second_00"),
            (8, "second_0b"),
            (8, "cut_plated"),
            (8, "cut_plated_kind"),
        ],
    )
}

// Swaps made and refused, by a plated stitch.
fn plated_ties(rt: &HostRuntime) -> io::Result<()> {
    show_all(
        rt,
        &[
            (8, "plated_front_free"),
            (8, "plated_front_tied"),
            (8, "plated_front_turned"),
            (8, "plated_back_free"),
            (8, "plated_back_tied"),
            (8, "plated_back_turned"),
            (8, "plated_drop_back"),
            (8, "plated_drop_front"),
            (8, "second_carrier"),
            (8, "second_then_first"),
            (8, "plated_pair"),
        ],
    )
}

// Hook limits of document 02, W2: loops at and over them.
fn limits(rt: &HostRuntime) -> io::Result<()> {
    show_all(
        rt,
        &[
            (1, "plated_knit_at_1"),
            (2, "plated_knit_at_2"),
            (1, "tuck_at_1"),
            (1, "two_tucks_at_1"),
            (2, "two_tucks_at_2"),
            (2, "three_tucks_at_2"),
            (1, "plated_tuck_at_1"),
            (2, "plated_tuck_at_2"),
            (2, "plated_tuck_over_at_2"),
            (3, "plated_tuck_over_at_3"),
            (1, "knits_at_1"),
            (1, "split_at_1"),
            (1, "split_onto_loop_at_1"),
            (1, "split_of_none_at_1"),
            (1, "xfer_at_1"),
            (4, "xfer_over_4"),
            (4, "xfer_to_4"),
            (1, "xfer_none_onto_full_at_1"),
            (5, "eight_tucks_at_5"),
            (6, "eight_tucks_at_6"),
            (7, "eight_tucks_at_7"),
            (8, "eight_tucks_at_8"),
            (8, "nine_tucks_at_8"),
        ],
    )
}

// Limits out of range before everything else, and swaps at a limit.
fn limit_calls(rt: &HostRuntime) -> io::Result<()> {
    show_all(
        rt,
        &[
            (0, "limit_0"),
            (9, "limit_9"),
            (255, "limit_255"),
            (1, "too_long_at_1"),
            (9, "too_long_at_9"),
            (0, "kind_00_at_0"),
            (0, "foul_log_at_0"),
            (1, "swap_at_1"),
            (1, "tied_at_1"),
            (1, "full_before_log"),
            (3, "complete_at_3"),
        ],
    )
}

// Racks of document 02, W5: yarn carried off, and what passes.
fn stretches(rt: &HostRuntime) -> io::Result<()> {
    show_all(
        rt,
        &[
            (8, "stretched"),
            (8, "stretched_not_at_20"),
            (8, "stretched_left_side"),
            (8, "stretched_to_the_right"),
            (8, "stretched_nearer"),
            (8, "stretched_from_8"),
            (8, "stretched_on_the_back"),
            (1, "stretched_one_of_three"),
        ],
    )
}

fn main(rt: HostRuntime) -> io::Result<()> {
    files(&rt)?;
    pieces(&rt)?;
    refusals(&rt)?;
    states(&rt)?;
    swaps(&rt)?;
    ties(&rt)?;
    plated(&rt)?;
    plated_ties(&rt)?;
    limits(&rt)?;
    limit_calls(&rt)?;
    stretches(&rt)
}
