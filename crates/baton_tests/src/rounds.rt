// Whole rounds of questions and answers, in one thread and in two. That every call can succeed, and that
// whoever waits is woken, no clause says.
ghost use Rattle.std.specs.Prelude.{◌≡◌, ◌*◌, ◌+◌, ◌<◌, ◌^◌, length, IfOk};
ghost use Rattle.baton.specs.declared.view.Stage.TheVariants.{Idle, Waiting, Dismissed};

use baton::{Asker, Server, Turns, pair};
use std::alloc::{AllocError, Global};
use std::snapshot::Snapshot;
use std::sync::Wait;
use std::test::Fail;
use std::thread;
use std::thread::{Promise, Threads};

/// Question number n is n, and its answer is twice that.
struct Doubling;

impl Turns for Doubling {
    type Question = u64;

    type Answer = u64;

    type Asked = u64;

    type Told = u64;

    ghost asked = { λ question. question };

    ghost told = { λ answer. answer };

    ghost may_ask = { λ turns question. (question ≡ length turns) × (question < 2 ^ 32) };

    ghost may_answer = { λ turns question answer. answer ≡ 2 * question };
}

/// The bytes of a question come back in its answer.
struct Letters;

impl Turns for Letters {
    type Question = Vec<u8>;

    type Answer = Vec<u8>;

    type Asked = Vec<u8>;

    type Told = Vec<u8>;

    ghost asked = { λ question. question };

    ghost told = { λ answer. answer };

    ghost may_ask = { λ turns question. Unit {0} };

    ghost may_answer = { λ turns question answer. answer ≡ question };
}

/// The server that comes back is the one that went, at its end.
#[derive(Drop)]
struct Served(Snapshot<Server<Doubling>>);

impl Promise<Server<Doubling>> for Served {
    ghost kept_by = { λ promise server. (server.gate ≡ promise.0.value.gate) × (server.stage ≡ Dismissed) };
}

fn serve<R: Wait + Copy>(rt: R, mut server: Server<Doubling>) -> Server<Doubling>
    requires { server.stage ≡ Waiting }
    ensures { (result.gate ≡ server.gate) × (result.stage ≡ Dismissed) }
{
    for _ in rt.forever() {
        let Some(question) = server.next(&rt) else {
            return server;
        };
        server.answer(2 * question);
    }
    unreachable!()
}

fn ask_all<R: Wait>(rt: &R, asker: &mut Asker<Doubling>, count: u32) -> u64
    requires { (asker.old.stage ≡ Idle) × (length asker.old.turns ≡ 0) }
    ensures { (asker.new.stage ≡ Idle) × (asker.new.gate ≡ asker.old.gate) }
{
    let mut sum = 0;
    for number in 0..count {
        asker.ask(u64::from(number));
        sum ^= match asker.try_collect() {
            Some(answer) => answer,
            None => asker.collect(rt),
        };
    }
    sum
}

/// Asks a server in another thread, if there can be one, and gives what the answers make together.
fn asked_there<R: Threads + Wait + Copy + Send + 'static>(
    rt: R,
    alloc: Global,
    count: u32,
) -> Result<u64, AllocError> {
    let (mut asker, server) = pair::<Doubling>(alloc)?;
    let promise = Served(Snapshot::of(&server));
    match thread::spawn_with(&rt, promise, move || serve(rt, server)) {
        Ok(child) => {
            let sum = ask_all(&rt, &mut asker, count);
            let closer = asker.close();
            closer.meet(child.join(&rt));
            Ok(sum)
        }
        Err(refused) => {
            let closer = asker.close();
            closer.meet((refused.value)());
            Err(AllocError)
        }
    }
}

#[test]
fn whoever_waits_is_woken(rt: HostRuntime) -> Result<(), Fail> {
    let all = asked_there(rt, rt.alloc(), 20_000)?;
    let mut expected = 0;
    for number in 0..20_000 {
        expected ^= 2 * number;
    }
    assert!(rt; all == expected);
    Ok(())
}

/// Whether the server of a gate that was closed unused finds no question.
fn is_closed_unused<R: Wait>(rt: &R, alloc: Global) -> Result<bool, AllocError> {
    let (asker, mut server) = pair::<Doubling>(alloc)?;
    let closer = asker.close();
    match server.next(rt) {
        None => {
            closer.meet(server);
            Ok(true)
        }
        Some(question) => {
            server.answer(2 * question);
            closer.meet(serve(rt, server));
            Ok(false)
        }
    }
}

#[test]
fn a_gate_is_closed_unused(rt: HostRuntime) -> Result<(), Fail> {
    assert!(rt; is_closed_unused(&rt, rt.alloc())?);
    Ok(())
}

/// Gives every question back, until the gate is closed.
fn echo<R: Wait>(rt: &R, mut server: Server<Letters>) -> Server<Letters>
    requires { server.stage ≡ Waiting }
    ensures { (result.gate ≡ server.gate) × (result.stage ≡ Dismissed) }
{
    for _ in rt.forever() {
        let Some(letters) = server.next(rt) else {
            return server;
        };
        server.answer(letters);
    }
    unreachable!()
}

/// A round by one thread at both ends. `None` where a call did what no clause rules out, but shouldn't do.
fn round<R: Wait>(rt: &R, alloc: Global, letters: Vec<u8>) -> Result<Option<Vec<u8>>, AllocError> {
    let (mut asker, mut server) = pair::<Letters>(alloc)?;
    asker.ask(letters);
    let Some(question) = server.next(rt) else {
        let _answer = asker.collect(rt);
        asker.close().meet(server);
        return Ok(None);
    };
    if let Some(_early) = asker.try_collect() {
        server.answer(question);
        asker.close().meet(echo(rt, server));
        return Ok(None);
    }
    server.answer(question);
    let answer = asker.try_collect();
    if answer.is_none() {
        let _late = asker.collect(rt);
    }
    asker.close().meet(echo(rt, server));
    Ok(answer)
}

#[test]
fn a_round_by_one_thread(rt: HostRuntime) -> Result<(), Fail> {
    let letters = b"hello".to_vec(rt.alloc())?;
    let answer = round(&rt, rt.alloc(), letters)?;
    assert!(rt; answer.is_some_and(|letters| letters.as_slice() == b"hello".as_slice()));
    Ok(())
}
