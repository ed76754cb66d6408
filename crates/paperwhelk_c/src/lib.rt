// What is exported to C: the bench controller's question, and the sheet of a record. Each is the library's, with its clauses.
#![tactic(auto)]

ghost use Rattle.std.specs.Prelude.{◌≡◌, ◌≤◌, length};
ghost use Rattle.rules.specs.Question.{question};
ghost use Rattle.rules.specs.Record.{sheet_of};
ghost use Rattle.rules.specs.Text.{printed};
ghost use Rattle.sheet.specs.Overlaid.{most_sheet};
ghost use Rattle.paperwhelk.specs.Exported.{sheet_answer, sheet_left};

// The verdict, 0 inside, 1 below, 2 above, or minus a refusal.
#[unsafe(no_mangle)]
pub extern "C" fn paperwhelk_verdict(
    cycle: &[u8],
    speed_tol: u32,
    time_tol: u32,
    allowance: u32,
    position: u32,
    speed: u32,
) -> i32
    ensures { result ≡ question cycle.now (record { speed = speed_tol; time = time_tol; allowance = allowance }) position speed }
{
    paperwhelk::verdict::paperwhelk_verdict(cycle, speed_tol, time_tol, allowance, position, speed)
}

// How many bytes the record's sheet has, which stands at the front of out, or minus 16 where it does not fit.
#[unsafe(no_mangle)]
pub extern "C" fn paperwhelk_sheet(record: &[u8], out: &mut [u8]) -> i32
    ensures value { result ≡ sheet_answer (printed (sheet_of «record».now)) out.old }
    ensures out_after { out.new ≡ sheet_left (printed (sheet_of «record».now)) out.old }
    ensures record_len_bound { length (printed (sheet_of «record».now)) ≤ most_sheet }
{
    paperwhelk::sheets::paperwhelk_sheet(record, out)
}
