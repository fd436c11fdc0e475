// This program runs the sessions worked by hand, and events at the limits, through the public call `step`. For each
// event it prints `ok` and the number of reports, or `no` and the refusal, and then the bytes of the first report.
#![tactic(auto)]

use detector::{Detector, Event, Refusal};
use waits::{Outcome, Tried, Waits};

// Writes a text to standard output.
fn print(rt: &HostRuntime, text: &[u8]) {
    let _ = rt.write_all(text);
}

// Writes a number in decimal to standard output.
fn print_number(rt: &HostRuntime, n: usize) {
    let _ = rt.print(n);
}

// Prints the bytes of the first report: the number of its entries, and then the entries.
fn show_report(rt: &HostRuntime, buf: &[u8; Detector::BUFFER_BYTES]) {
    let end = 1 + Waits::ENTRY_BYTES * usize::from(buf[0]);
    for &byte in &buf[..end] {
        print(rt, b" ");
        print_number(rt, usize::from(byte));
    }
}

// Prints a reply as a line, with the bytes of the first report if there is one.
fn show(rt: &HostRuntime, reply: Result<usize, Refusal>, buf: &[u8; Detector::BUFFER_BYTES]) {
    match reply {
        Ok(n) => {
            print(rt, b"ok ");
            print_number(rt, n);
            if 0 < n {
                print(rt, b" bytes");
                show_report(rt, buf);
            }
        }
        Err(refusal) => {
            print(rt, b"no ");
            print_number(rt, usize::from(u8::from(refusal)));
        }
    }
    print(rt, b"\n");
}

// Takes one step, and prints what the call gave back.
fn play(rt: &HostRuntime, d: &mut Detector, e: Event) {
    let mut buf = [0u8; Detector::BUFFER_BYTES];
    let reply = d.step(e, &mut buf);
    show(rt, reply, &buf);
}

// Takes n steps with the same event, and prints nothing.
fn quietly(d: &mut Detector, e: Event, n: usize) {
    for _ in 0..n {
        let mut buf = [0u8; Detector::BUFFER_BYTES];
        let _ = d.step(e, &mut buf);
    }
}

// Session 1: two threads each hold a mutex that the other wants.
fn p1(rt: &HostRuntime) {
    print(rt, b"P1: two mutexes taken in turns\n");
    let mut d = Detector::new();
    play(rt, &mut d, Event::MutexAttempt(1, 5, Outcome::Took));
    play(rt, &mut d, Event::MutexAttempt(2, 6, Outcome::Took));
    play(rt, &mut d, Event::MutexAttempt(1, 6, Outcome::Blocked));
    play(rt, &mut d, Event::MutexAttempt(2, 5, Outcome::Blocked));
    totals(rt, &d);
}

// Prints how many edges are stored and how many threads are stuck; of a state that is not valid only the edges.
fn totals(rt: &HostRuntime, d: &Detector) {
    print(rt, b"edges ");
    print_number(rt, d.edges_stored());
    if let Ok(n) = d.stuck() {
        print(rt, b" stuck ");
        print_number(rt, n);
    }
    print(rt, b"\n");
}

// Session 2: a thread locks its own mutex again, which the filter keeps from being reported. With a reader of
// that lock it is reported.
fn p2(rt: &HostRuntime) {
    print(rt, b"P2: relock, then with a reader between\n");
    let mut d = Detector::new();
    play(rt, &mut d, Event::MutexAttempt(1, 5, Outcome::Took));
    play(rt, &mut d, Event::MutexAttempt(1, 5, Outcome::Blocked));
    totals(rt, &d);
    d = Detector::new();
    play(rt, &mut d, Event::MutexAttempt(1, 5, Outcome::Took));
    play(rt, &mut d, Event::RwReadAttempt(2, 5, Outcome::Took));
    play(rt, &mut d, Event::MutexAttempt(1, 5, Outcome::Blocked));
    totals(rt, &d);
}

// Session 3: a thread that reads a lock wants to write it.
fn p3(rt: &HostRuntime) {
    print(rt, b"P3: a reader that writes\n");
    let mut d = Detector::new();
    play(rt, &mut d, Event::RwReadAttempt(3, 7, Outcome::Took));
    play(rt, &mut d, Event::RwWriteAttempt(3, 7, Outcome::Blocked));
    totals(rt, &d);
}

// Session 4: two threads that read a lock both want to write it.
fn p4(rt: &HostRuntime) {
    print(rt, b"P4: two readers that write\n");
    let mut d = Detector::new();
    play(rt, &mut d, Event::RwReadAttempt(3, 7, Outcome::Took));
    play(rt, &mut d, Event::RwReadAttempt(4, 7, Outcome::Took));
    play(rt, &mut d, Event::RwWriteAttempt(3, 7, Outcome::Blocked));
    totals(rt, &d);
    play(rt, &mut d, Event::RwWriteAttempt(4, 7, Outcome::Blocked));
    totals(rt, &d);
}

// Session 5: a thread reads a lock twice, so only its second release drops the edge to it.
fn p5(rt: &HostRuntime) {
    print(rt, b"P5: a read counted twice\n");
    let mut d = Detector::new();
    play(rt, &mut d, Event::RwReadAttempt(3, 7, Outcome::Took));
    play(rt, &mut d, Event::RwReadTry(3, 7, Tried::Taken));
    play(rt, &mut d, Event::RwWriteAttempt(4, 7, Outcome::Blocked));
    play(rt, &mut d, Event::RwReadReleased(3, 7));
    totals(rt, &d);
    play(rt, &mut d, Event::RwReadReleased(3, 7));
    totals(rt, &d);
}

// Session 6: a lock is destroyed while a thread awaits it, and the edge of this thread stays.
fn p6(rt: &HostRuntime) {
    print(rt, b"P6: a lock destroyed under its waiter\n");
    let mut d = Detector::new();
    play(rt, &mut d, Event::MutexAttempt(4, 1, Outcome::Took));
    play(rt, &mut d, Event::RwReadAttempt(3, 7, Outcome::Took));
    play(rt, &mut d, Event::RwWriteAttempt(4, 7, Outcome::Blocked));
    play(rt, &mut d, Event::RwExit(7));
    play(rt, &mut d, Event::MutexAttempt(3, 1, Outcome::Blocked));
    totals(rt, &d);
}

// Session 7: a reader comes while a writer waits, and no edge from the writer to it is stored.
fn p7(rt: &HostRuntime) {
    print(rt, b"P7: a reader who arrives while a writer waits\n");
    let mut d = Detector::new();
    play(rt, &mut d, Event::MutexAttempt(4, 1, Outcome::Took));
    play(rt, &mut d, Event::RwReadAttempt(5, 7, Outcome::Took));
    play(rt, &mut d, Event::RwWriteAttempt(4, 7, Outcome::Blocked));
    play(rt, &mut d, Event::RwReadAttempt(3, 7, Outcome::Took));
    play(rt, &mut d, Event::MutexAttempt(3, 1, Outcome::Blocked));
    totals(rt, &d);
}

// Session 8: a thread is woken and waits for the mutex; the end of its wait drops the edge.
fn p8(rt: &HostRuntime) {
    print(rt, b"P8: a thread woken\n");
    let mut d = Detector::new();
    play(rt, &mut d, Event::MutexAttempt(1, 5, Outcome::Took));
    play(rt, &mut d, Event::CondvarWaitBegin(2, 0, 5));
    play(rt, &mut d, Event::CondvarNotifyOne(0));
    totals(rt, &d);
    play(rt, &mut d, Event::CondvarWaitEnd(2, 0, 5));
    totals(rt, &d);
}

// Session 9: a blocked write of a lock that nobody has leaves no intent.
fn p9(rt: &HostRuntime) {
    print(rt, b"P9: a write of a free lock\n");
    let mut d = Detector::new();
    play(rt, &mut d, Event::RwWriteAttempt(4, 7, Outcome::Blocked));
    totals(rt, &d);
}

// Session 10: the highest numbers are accepted, and the next ones are refused.
fn p10(rt: &HostRuntime) {
    print(rt, b"P10: the last numbers, and the first outside\n");
    let mut d = Detector::new();
    play(rt, &mut d, Event::CondvarWaitBegin(31, 15, 63));
    play(rt, &mut d, Event::MutexAcquired(32, 63));
    play(rt, &mut d, Event::MutexAcquired(31, 64));
    play(rt, &mut d, Event::CondvarSpawn(16));
    play(rt, &mut d, Event::MutexAcquired(32, 64));
    play(rt, &mut d, Event::MutexAttempt(1, 64, Outcome::Hinted(32)));
    play(rt, &mut d, Event::CondvarWaitBegin(1, 16, 64));
    totals(rt, &d);
}

// Runs words about mutexes and rwlocks that sessions 1 to 10 leave out.
fn ours_locks(rt: &HostRuntime) {
    print(rt, b"ours: wc, wr, mc, mr, md\n");
    let mut d = Detector::new();
    play(rt, &mut d, Event::RwWriteAcquired(2, 7));
    play(rt, &mut d, Event::RwWriteAttempt(4, 7, Outcome::Blocked));
    totals(rt, &d);
    play(rt, &mut d, Event::RwWriteReleased(2, 7));
    totals(rt, &d);
    play(rt, &mut d, Event::MutexAcquired(1, 5));
    play(rt, &mut d, Event::MutexAttempt(2, 5, Outcome::Blocked));
    totals(rt, &d);
    play(rt, &mut d, Event::MutexReleased(1, 5));
    totals(rt, &d);
    play(rt, &mut d, Event::MutexAcquired(3, 5));
    totals(rt, &d);
    play(rt, &mut d, Event::MutexExit(5));
    totals(rt, &d);
}

// Runs words about reads and condvars that sessions 1 to 10 leave out.
fn ours_condvars(rt: &HostRuntime) {
    print(rt, b"ours: rc, cn, cd, ca\n");
    let mut d = Detector::new();
    play(rt, &mut d, Event::RwReadAcquired(1, 5));
    play(rt, &mut d, Event::MutexAcquired(1, 5));
    play(rt, &mut d, Event::CondvarWaitBegin(2, 0, 5));
    play(rt, &mut d, Event::CondvarSpawn(0));
    play(rt, &mut d, Event::CondvarNotifyOne(0));
    play(rt, &mut d, Event::CondvarWaitBegin(2, 0, 5));
    play(rt, &mut d, Event::CondvarExit(0));
    play(rt, &mut d, Event::CondvarNotifyAll(0));
    totals(rt, &d);
    play(rt, &mut d, Event::CondvarWaitBegin(2, 0, 5));
    play(rt, &mut d, Event::CondvarWaitBegin(3, 0, 5));
    play(rt, &mut d, Event::CondvarNotifyAll(0));
    totals(rt, &d);
}

// Fills a queue: the 33rd pair is refused, and another queue still takes one.
fn full_queue(rt: &HostRuntime) {
    print(rt, b"the 33rd cb\n");
    let mut d = Detector::new();
    quietly(&mut d, Event::CondvarWaitBegin(1, 0, 5), 32);
    play(rt, &mut d, Event::CondvarWaitBegin(1, 0, 5));
    play(rt, &mut d, Event::CondvarWaitBegin(1, 1, 5));
    totals(rt, &d);
}

// Fills a reader count: each event that would count a 256th read is refused, and tries that do not count are served.
fn full_count(rt: &HostRuntime) {
    print(rt, b"the 256th read\n");
    let mut d = Detector::new();
    quietly(&mut d, Event::RwReadAcquired(1, 5), 255);
    play(rt, &mut d, Event::RwReadAcquired(1, 5));
    play(rt, &mut d, Event::RwReadAttempt(1, 5, Outcome::Took));
    play(rt, &mut d, Event::RwReadTry(1, 5, Tried::Taken));
    play(rt, &mut d, Event::RwReadTry(1, 5, Tried::Missed));
    play(rt, &mut d, Event::RwReadAttempt(1, 5, Outcome::Blocked));
    totals(rt, &d);
}

// Lends a report buffer that is one byte too short: the event is refused, and the buffer stays as it was.
fn short_buffer(rt: &HostRuntime) {
    print(rt, b"a buffer of 2,079 bytes\n");
    let mut d = Detector::new();
    let mut small = [7u8; Detector::BUFFER_BYTES - 1];
    let reply = d.step(Event::MutexAcquired(1, 5), &mut small);
    show(rt, reply, &[0u8; Detector::BUFFER_BYTES]);
    print_number(rt, usize::from(small[0]));
    print(rt, b"\n");
}

// Gives a hint on a free lock, and prints the owner that it records.
fn hint(rt: &HostRuntime) {
    print(rt, b"a hint on a free lock records its owner\n");
    let mut d = Detector::new();
    play(rt, &mut d, Event::MutexAttempt(2, 5, Outcome::Hinted(1)));
    print_number(rt, usize::from(d.waits.mutex_owners[5]));
    print(rt, b"\n");
}

// Runs events in a state that is not valid: refusal 2 comes before refusal 3.
fn lent(rt: &HostRuntime) {
    print(rt, b"a lent state with an owner of 33\n");
    let mut d = Detector::new();
    d.waits.mutex_owners[0] = 33;
    play(rt, &mut d, Event::MutexAcquired(1, 5));
    play(rt, &mut d, Event::MutexAcquired(32, 5));
    totals(rt, &d);
}

fn main(rt: HostRuntime) {
    p1(&rt);
    p2(&rt);
    p3(&rt);
    p4(&rt);
    p5(&rt);
    p6(&rt);
    p7(&rt);
    p8(&rt);
    p9(&rt);
    p10(&rt);
    ours_locks(&rt);
    ours_condvars(&rt);
    full_queue(&rt);
    full_count(&rt);
    short_buffer(&rt);
    hint(&rt);
    lent(&rt);
}
