// Cases of `replay`: a plan (`given`). Written is what the plan check says, the cost, and whether `next` makes a new plan, with the
// indexes that stand after it. Or what the smaller calls answer: the counts, the flows, the cost and the next of its scans without the
// plan, and each scan by itself. compare/plans.rs makes cases and answers.
use capacity::MAX_SCANS;
use plan::{EntityValueFlow, Scan, Slot};
use refusal::Refusal;
use replay_given::numbers::Numbers;
use replay_given::written::{Answer, Indexes, WrittenScan, counted, said};
use std::io;
use std::io::Stdout;

// A plan.
pub fn put_case(to: Stdout, numbers: &mut Numbers) -> io::Result<()> {
    let plan = numbers.plan();
    let check = plan_check::check_invariants(plan);
    print!(to;
        "check {}, cost {}, next ",
        said(check),
        Answer(cost::cost(plan))
    )?;
    let mut next = plan;
    let is_new = listing::next(&mut next);
    put_next(to, is_new, counted(&next.scans, next.scan_count))?;
    println!(to)
}

// A plan, by the smaller calls.
pub fn put_parts(to: Stdout, numbers: &mut Numbers) -> io::Result<()> {
    let plan = numbers.plan();
    let counts = plan::check_counts(plan.scan_count, plan.slot_count, plan.select_count);
    let flows = plan::check_flows(plan);
    let cost = cost::cost_of_scans(plan.scans, plan.scan_count);
    print!(to;
        "counts {}, flows {}, cost {}, next ",
        said(counts),
        said(flows),
        Answer(cost)
    )?;
    let mut after = plan.scans;
    let is_new = listing::next_scans(&mut after, plan.scan_count);
    put_next(to, is_new, counted(&after, plan.scan_count))?;
    for scan in counted(&plan.scans, plan.scan_count) {
        put_scan(to, *scan)?;
    }
    println!(to)
}

// Whether a step gave something new, or why it was refused, and the indexes after it.
fn put_next(to: Stdout, is_new: Result<bool, Refusal>, scans: &[Scan]) -> io::Result<()> {
    print!(to; "{} {}", Answer(is_new.map(yes_or_no)), Indexes(scans))
}

fn yes_or_no(is_so: bool) -> &'static str {
    if is_so { "yes" } else { "no" }
}

// A scan's slots in index order, its flow of entity and value, whether it is out-out over eavt, and the next of its cycle.
fn put_scan(to: Stdout, scan: Scan) -> io::Result<()> {
    let [Slot(first), Slot(second)] = scan.slots();
    let flow = match scan.entity_value_flow() {
        EntityValueFlow::OutOut => "out-out",
        EntityValueFlow::InOut => "in-out",
        EntityValueFlow::OutIn => "out-in",
        EntityValueFlow::InIn => "in-in",
    };
    print!(to; "; slots {first} {second} {flow}")?;
    if plan::is_out_out_eavt(scan) {
        print!(to; " over eavt")?;
    }
    // A scan's next is that of an array of which it alone counts.
    let mut scans = [scan; MAX_SCANS];
    let is_new = listing::next_scans(&mut scans, 1);
    print!(to;
        " next {} {}",
        Answer(is_new.map(yes_or_no)),
        WrittenScan(scans[0])
    )
}
