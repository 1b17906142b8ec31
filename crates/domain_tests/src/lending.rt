// A domain is lent to its seats, and given back.
ghost use Rattle.std.specs.Prelude.{◌≡◌, ◌≤◌, [], vec_len, vec_capacity};
ghost use Rattle.mvrlu.specs.Meant.{numbers_of, seat_of};
ghost use Rattle.mvrlu.specs.Orders.{IsSameSeat, AreRising, AreFalling};
ghost use Rattle.domain_tests.specs.Clients.{seat_in};

use crate::clients::Client;
use mv_history::{AnyRules, Section};
use mvrlu::{Domain, Seat};

// The seat of a client, whose section, if it is in one, is given up.
fn seat_back(client: Client<'_>) -> Seat<AnyRules>
    ensures { IsSameSeat (seat_in client.entry) (seat_of result) }
{
    match client {
        Client::Outside(handle) => handle.into_seat(),
        Client::Inside(session) => session.abort().into_seat(),
    }
}

// Lends the domain to each seat, the last first, in a row that has room for them.
pub(crate) fn lend<'d>(
    domain: &'d Domain<AnyRules>,
    seats: &mut Vec<Seat<AnyRules>>,
    clients: &mut Vec<Client<'d>>,
)
    requires many { vec_len seats.old ≡ (numbers_of domain.now).seats }
    requires rising { AreRising seat_of domain.now seats.old.items }
    requires empty { clients.old.items ≡ [] }
    requires room { vec_len seats.old ≤ vec_capacity clients.old }
    ensures many { vec_len clients.new ≡ (numbers_of domain.now).seats }
    ensures falling { AreFalling seat_in domain.now (numbers_of domain.now).seats clients.new.items }
    ensures empty { seats.new.items ≡ [] }
    ensures room { vec_capacity seats.new ≡ vec_capacity seats.old }
    ensures room_left { vec_capacity clients.new ≡ vec_capacity clients.old }
{
    while let Some(seat) = seats.pop() {
        clients.push_reserved(Client::Outside(domain.handle(seat)));
    }
}

// Gives the domain back: the seats in order of number, in a row that has room for them. A section that
// was left open is given up.
pub(crate) fn give_back(
    domain: &Domain<AnyRules>,
    clients: &mut Vec<Client<'_>>,
    seats: &mut Vec<Seat<AnyRules>>,
)
    requires many { vec_len clients.old ≡ (numbers_of domain.now).seats }
    requires falling { AreFalling seat_in domain.now (numbers_of domain.now).seats clients.old.items }
    requires empty { seats.old.items ≡ [] }
    requires room { vec_len clients.old ≤ vec_capacity seats.old }
    ensures many { vec_len seats.new ≡ (numbers_of domain.now).seats }
    ensures rising { AreRising seat_of domain.now seats.new.items }
    ensures empty { clients.new.items ≡ [] }
    ensures room { vec_capacity clients.new ≡ vec_capacity clients.old }
{
    while let Some(client) = clients.pop() {
        seats.push_reserved(seat_back(client));
    }
}
