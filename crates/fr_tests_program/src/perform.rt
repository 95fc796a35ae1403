//! The jobs on files. The check would let pass a job that ends in a fault, or never sees what the jobs before it did,
//! though nothing fails.
use crate::fixture::{CLUSTER, PLAN, carried_out};
use fr_base::{Purpose, Query, Report};
use fr_cli::perform::perform;
use fr_cli::{Delivery, Inquiry, Job, LocalFiles, LocalListener, LocalRegisters};
use fr_desks::file_desk;
use sqlite::{FileFrom, Leftover, Start, Unknown};
use std::fs;
use std::net::{Ipv4Addr, TcpListener};
use std::test::Fail;

/// The placement of the plan as an import.
const PLACEMENTS: &str = "frame,node,slot,channels,base,repetition\nf1,n1,1,A,0,64\n";

// Whether the job ends so: what it prints, what it says at standard error, its status.
fn ends(rt: &HostRuntime, job: &Job<'_>, out: &str, err: &str, status: u8) -> bool {
    let mut printed = Vec::new(rt.alloc());
    let mut told = Vec::new(rt.alloc());
    let (done, _left) = perform_from(rt, job, Unknown, &mut printed, &mut told);
    done == status && printed.as_slice() == out.as_bytes() && told.as_slice() == err.as_bytes()
}

// Does the job with nothing to read. `start` says what its register file held as it was opened.
fn perform_from<S: Start>(
    rt: &HostRuntime,
    job: &Job<'_>,
    start: S,
    printed: &mut Vec<u8>,
    told: &mut Vec<u8>,
) -> (u8, Option<Leftover<FileFrom<S>>>) {
    let mut registers = LocalRegisters {
        rt,
        start: Some(start),
        kept: job.kept_bytes(),
    };
    perform(
        rt.alloc(),
        job,
        &mut registers,
        &mut LocalFiles { rt },
        &mut b"".as_slice(),
        printed,
        told,
        &mut LocalListener::new(rt),
    )
}

fn prints(rt: &HostRuntime, job: &Job<'_>, text: &str) -> bool {
    ends(rt, job, text, "", 0)
}

fn fails(rt: &HostRuntime, job: &Job<'_>, why: &str) -> bool {
    ends(rt, job, "", why, 1)
}

// The integrator's report of `v1` in the register file.
fn report_of<'a>(db: &'a str, report: Report<&'a str>) -> Job<'a> {
    let variant = "v1";
    let query = Inquiry {
        query: Query::Variant { variant, report },
        supplier: None,
    };
    Job::Report { db, query }
}

// The job that delivers a file of rows of `v1` to the register file.
fn delivery_of<'a>(db: &'a str, how: Purpose<&'a str>, file: &'a str) -> Job<'a> {
    let delivery = Delivery {
        key: "supplier01",
        variant: "v1",
        how,
        file,
    };
    Job::Deliver { db, delivery }
}

// Opens a variant in the register file, adds a node and grants it a slot.
fn granted(rt: &HostRuntime, db: &str) -> Result<(), Fail> {
    let mut desk = file_desk::open(rt, db, Unknown, 0).map_err(|(fault, _)| fault)?;
    carried_out(rt.alloc(), &mut desk, &PLAN[..3])?;
    drop(file_desk::close(desk));
    Ok(())
}

/// A register is made, planned in, and read, each by a job of its own.
#[test]
fn each_command_finds_what_the_others_did(rt: HostRuntime) -> Result<(), Fail> {
    let (db, config, file) = ("performed.db", "performed.toml", "performed.csv");
    fs::write(&rt, config, CLUSTER)?;
    fs::write(&rt, file, PLACEMENTS)?;
    let create = Job::Create { db, config };
    assert!(rt; prints(&rt, &create, ""));
    assert!(rt; fails(&rt, &create, "slotplan: NotEmpty\n"));
    let gaps = report_of(db, Report::Gaps);
    assert!(rt; fails(&rt, &gaps, "{\"no\":10,\"refused\":\"NoVariant\"}\n"));
    granted(&rt, db)?;
    let import = delivery_of(db, Purpose::Import { label: "l1" }, file);
    assert!(rt; prints(&rt, &import, "{\"ok\":\"imported\",\"rows\":1}\n"));
    let replacement = delivery_of(db, Purpose::Replacement { whole: false }, file);
    assert!(rt; prints(&rt, &replacement, "{\"ok\":\"replaced\",\"rows\":1}\n"));
    assert!(rt;
        prints(
            &rt,
            &report_of(db, Report::Schedule),
            "00 0001 A f1 n1 s1\n"
        )
    );
    assert!(rt; prints(&rt, &gaps, "GAP    6400 f1 s1\n"));
    for path in [db, config, file] {
        fs::remove_file(&rt, path)?;
    }
    Ok(())
}

/// A file that is no register, one that is not there, and a port that is taken.
#[test]
fn a_fault_is_told_by_its_word(rt: HostRuntime) -> Result<(), Fail> {
    let (db, config, text) = ("told.db", "told.toml", "told.txt");
    fs::write(&rt, text, [b'x'; 100])?;
    let schedule = report_of(text, Report::Schedule);
    assert!(rt; fails(&rt, &schedule, "slotplan: NotARegister\n"));
    let create = Job::Create { db, config };
    assert!(rt; fails(&rt, &create, "slotplan: CannotOpen\n"));
    fs::write(&rt, config, CLUSTER)?;
    assert!(rt; prints(&rt, &create, ""));
    let listener = TcpListener::bind(&rt, (Ipv4Addr::LOCALHOST, 0))?;
    let port = listener.local_addr()?.port();
    let serve = Job::Serve {
        db,
        port,
        count: 1,
        seconds: 10,
        memory: 128,
    };
    assert!(rt; fails(&rt, &serve, "slotplan: CannotListen\n"));
    for path in [db, config, text] {
        fs::remove_file(&rt, path)?;
    }
    Ok(())
}
