//! Serves a register file over HTTP: connections are accepted, served and closed, one after another.
ghost use Rattle.std.specs.Prelude.{◌≡◌, ◌⊎◌, ◌∷◌, [], false, IfErr, IfOk, OnErr, OnOk, ⊤};
ghost use Rattle.fr_cli.specs.Handlings.{IsOpenedAt, handlings};
ghost use Rattle.fr_cli.specs.Outlets.{IsCutShort, outlet};
ghost use Rattle.fr_cli.specs.Performing.{listening};
ghost use Rattle.fr_cli.specs.Serving.{Announces, HasServed, IsAnnounced, IsServedOver, ServesEach, ServesOne, TellsEach, TellsEnd, WasAnnounced};
ghost use Rattle.fr_cli.specs.Visits.{AreVisited, IsVisited, Visit, comings};
ghost use Rattle.fr_cli.specs.declared.fault.Fault.TheVariants.{CannotListen, Register};
ghost use Rattle.fr_http.specs.Exchanges.{was_asked};
ghost use Rattle.fr_store.specs.declared.fault.StoreFault.TheVariants.{Unavailable};

use crate::fault::{Fault, link_word};
use crate::files::registers::Registers;
use crate::jobs::guarded::Guarded;
use crate::jobs::live_desk::LiveDesk;
use crate::jobs::register_task::{RegisterTask, run_task};
use crate::streams::listener::Listener;
use crate::streams::printing::{print, print_word};
use fr_base::Desk;
use fr_desks::Left;
use fr_http::{Engine, LinkFault, Served, Source, serve_one};
use fr_office::Office;
use fr_store::StoreFault;
use fr_text::Sink;
use std::alloc::Global;
use std::io;

/// How a register is served.
#[derive(Clone, Copy)]
pub struct Service {
    /// The TCP port on 127.0.0.1, 1 to 65,535.
    pub port: u16,
    /// How many connections are served, 1 to 1,000,000.
    pub count: u32,
    /// How many seconds a connection lasts at most, 1 to 3,600, so that no client holds the others longer.
    pub seconds: u32,
}

/// A register served: as many connections as the service has, one after another. A connection's fault is printed, and the next
/// connection is served. Where another file stands in the place of the register's, or a fault has shut the register, a request
/// is answered `Unavailable`, and the server ends with that fault. What came in at the listener is answered, and nothing else.
#[derive(Drop)]
pub(crate) struct ServeTask<'l, 'o, 'e, L, O, E> {
    pub service: Service,
    pub listener: &'l mut L,
    /// Where the line is printed that says where the server listens.
    pub out: &'o mut O,
    /// Where the faults of connections are told.
    pub err: &'e mut E,
}

impl<R, W, L, O, E> RegisterTask for ServeTask<'_, '_, '_, L, O, E>
where
    R: Source + Drop,
    W: Sink + Drop,
    L: Listener<Reader = R, Writer = W>,
    O: Sink,
    E: Sink,
{
    ghost use Rattle.std.specs.Prelude.{◌≡◌};
    ghost use Rattle.fr_cli.specs.Outlets.{outlet};
    ghost use Rattle.fr_cli.specs.RegisterTasks.{ServesConnections};
    ghost use Rattle.fr_cli.specs.Visits.{comings};

    type Done = ();

    type Fault = Fault;

    ghost does = { λ it then desks desk old new done. ServesConnections it.service
        (comings L.Listener R.Source W.Sink it.listener.now then.listener.now)
        (outlet O.Sink it.out.now then.out.now) (outlet E.Sink it.err.now then.err.now)
        desks desk old new done
        × ((then.listener.ghost_name ≡ it.listener.ghost_name)
        × ((then.out.ghost_name ≡ it.out.ghost_name)
        × (then.err.ghost_name ≡ it.err.ghost_name))) };

    fn carry_out<G: Registers>(
        &mut self,
        alloc: Global,
        registers: &G,
        db: &str,
        office: Office<G::Records>,
    ) -> (Result<(), Fault>, Office<G::Records>) {
        match registers.watch(db) {
            Ok(watch) => {
                let mut guarded = Guarded::new(office, watch);
                let done = listen(
                    alloc,
                    &mut guarded,
                    self.service,
                    self.listener,
                    self.out,
                    self.err,
                );
                (done, guarded.into_office())
            }
            Err(fault) => (Err(Fault::from(fault)), office),
        }
    }
}

/// Serves the register in the file at `db`, as [`ServeTask`] says. Closes the file, and gives what is left of it.
pub(crate) fn serve<G: Registers, L: Listener, O: Sink, E: Sink>(
    alloc: Global,
    registers: &mut G,
    db: &str,
    service: Service,
    listener: &mut L,
    out: &mut O,
    err: &mut E,
) -> (Result<(), Fault>, Left<G::File>)
    ensures served { let came = comings L.Listener L.Reader.Source L.Writer.Sink listener.old listener.new in
        IsServedOver ⟦<Office<G::Records> as Desk>⟧ (G.holds registers.old db.now) result.1 service
        came (outlet O.Sink out.old out.new) (outlet E.Sink err.old err.new) result.0 }
    ensures files { IsOpenedAt (handlings G.Registers registers.old registers.new) result.1 db.now }
{
    let mut task = ServeTask {
        service,
        listener,
        out,
        err,
    };
    run_task(alloc, registers, db, &mut task)
}

// Listens, and serves as many connections as the service has. Behind each there is a desk that stands for the book after it.
fn listen<D: LiveDesk, L: Listener, O: Sink, E: Sink>(
    alloc: Global,
    desk: &mut D,
    service: Service,
    listener: &mut L,
    out: &mut O,
    err: &mut E,
) -> Result<(), Fault>
    ensures falls { D.clean desk.new → D.clean desk.old }
    ensures announced { Announces L.Listener service listener.old (outlet O.Sink out.old out.new)
        result }
    ensures served { let came = comings L.Listener L.Reader.Source L.Writer.Sink listener.old
        listener.new in
        HasServed (ServesEach D.clean D.stands desk.old desk.new) service.count
        (WasAnnounced service.port (outlet O.Sink out.old out.new))
        (IsCutShort (outlet O.Sink out.old out.new) (listening service.port))
        (came.deaf service.port) (came.at service.port service.seconds)
        (outlet E.Sink err.old err.new) result }
{
    let engine = Engine::new(alloc).map_err(|_| Fault::NoMemory)?;
    begin(listener, service.port)?;
    announce(alloc, service.port, out)?;
    answer_all(&engine, listener, &service, desk, err)
}

// Begins to listen at the port.
fn begin<L: Listener>(listener: &mut L, port: u16) -> Result<(), Fault>
    ensures ok { OnOk result (L.listens listener.old port listener.new) }
    ensures fault { IfErr result (λ fault. fault ≡ CannotListen) }
    ensures refused { OnErr result (L.refuses listener.old port × (listener.new ≡ listener.old)) }
{
    listener.listen(port).map_err(|_| Fault::CannotListen)
}

// Prints where it listens.
fn announce<O: Sink>(alloc: Global, port: u16, out: &mut O) -> Result<(), Fault>
    ensures announced { IsAnnounced ⊤ port (outlet O.Sink out.old out.new) result }
    ensures fault { IfErr result (λ fault. (fault ≡ Fault.NoMemory) ⊎ ((fault ≡ Fault.WriteFailed)
        × IsCutShort (outlet O.Sink out.old out.new) (listening port))) }
{
    let line = format!(in alloc; "listening on 127.0.0.1:{port}\n").map_err(|_| Fault::NoMemory)?;
    Ok(print(line.as_bytes(), out)?)
}

// Serves as many connections as the service has; or fewer, where the register comes to an end. Behind each there is a desk
// that stands for the book after it.
fn answer_all<D: LiveDesk, L: Listener, E: Sink>(
    engine: &Engine,
    listener: &mut L,
    service: &Service,
    desk: &mut D,
    err: &mut E,
) -> Result<(), Fault>
    ensures falls { D.clean desk.new → D.clean desk.old }
    ensures served { HasServed (ServesEach D.clean D.stands desk.old desk.new)
        service.now.count ⊤ ⊥ (L.ends listener.new) (λ visits.
        AreVisited L.Listener L.Reader.Source L.Writer.Sink service.now.seconds listener.old visits
        listener.new) (outlet E.Sink err.old err.new) result }
    ensures fault { IfErr result (λ fault. (fault ≡ CannotListen) ⊎ (fault ≡ Register Unavailable)) }
{
    for _ in 0..service.count {
        let lasts = answer_next(engine, listener, service.seconds, desk, err)?;
        if !lasts {
            return Err(Fault::Register(StoreFault::Unavailable));
        }
    }
    Ok(())
}

// Serves the next connection, and prints the word of its fault, if it has one. Gives whether another can be served.
fn answer_next<D: LiveDesk, L: Listener, E: Sink>(
    engine: &Engine,
    listener: &mut L,
    seconds: u32,
    desk: &mut D,
    err: &mut E,
) -> Result<bool, Fault>
    ensures falls { D.clean desk.new → D.clean desk.old }
    ensures served { OnOk result ((visit : Visit)
        × IsVisited L.Listener L.Reader.Source L.Writer.Sink seconds listener.old visit listener.new
        × ServesOne (D.clean desk.new) (D.stands desk.old) (D.stands desk.new) visit
        × TellsEach E.Sink err.old err.new (visit ∷ [])) }
    ensures fault { IfErr result (λ fault. fault ≡ CannotListen) }
    ensures ended { OnErr result (L.ends listener.old × (listener.new ≡ listener.old)) }
    ensures stays { OnErr result (desk.new ≡ desk.old) }
    ensures quiet { OnErr result (err.new ≡ err.old) }
{
    match serve_next(engine, listener, seconds, desk) {
        Ok(done) => {
            tell_end(done, err);
            Ok(desk.lasts(engine.alloc()))
        }
        Err(_) => Err(Fault::CannotListen),
    }
}

// Prints the word of the fault that ended a connection, if one did.
fn tell_end<E: Sink>(done: Result<Served, LinkFault>, err: &mut E)
    ensures told { TellsEnd E.Sink err.old err.new done }
{
    if let Err(fault) = done {
        let _ = print_word(link_word(fault), err);
    }
}

/// Serves the next connection: one exchange with the register, which then stands for the book after it. The exchange has
/// exactly the bytes that were read of the connection and those that were written to it. How often it is read, why it ended by
/// a fault and that its reply is flushed is promised as of [`serve_one`]. It is an error where no connection
/// could be accepted; then all is as it was. The connection is to last so many seconds at most: no clause speaks of time.
pub fn serve_next<D: Desk, L: Listener>(
    engine: &Engine,
    listener: &mut L,
    seconds: u32,
    desk: &mut D,
) -> io::Result<Result<Served, LinkFault>>
    ensures falls { D.clean desk.new → D.clean desk.old }
    ensures served { IfOk result (λ done. (visit : Visit) × (visit.done ≡ done)
        × IsVisited L.Listener L.Reader.Source L.Writer.Sink seconds listener.old visit listener.new
        × ServesOne (D.clean desk.new) (D.stands desk.old) (D.stands desk.new) visit) }

    // Where the register was not asked it is as it was.
    ensures stays { IfOk result (λ done. was_asked done ≡ false → desk.new ≡ desk.old) }
    ensures ended { OnErr result (L.ends listener.old × (listener.new ≡ listener.old)) }
    ensures kept { OnErr result (desk.new ≡ desk.old) }
{
    let (mut reader, mut writer) = listener.accept(seconds)?;
    let done = serve_one(engine, &mut reader, &mut writer, desk);
    listener.close(reader, writer, &done);
    Ok(done)
}
