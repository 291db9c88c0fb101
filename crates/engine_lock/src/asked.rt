//! What an engine is asked for: a command, and the request for it.
ghost use Rattle.std.specs.Prelude.{◌≡◌, Ok, None, Some};
ghost use Rattle.kv_model.specs.Commands.{call_of};
ghost use Rattle.kv_model.specs.Requests.{request_of};
ghost use Rattle.kv_model.specs.Wire as events;
ghost use Rattle.event_book.specs.Asking.{IsAsked};

use json_gateway::WireEvent;
use kv_model::call::Command;
use std::marker::Model;

/// A command that an engine is asked for, and the request for it where there is one. Clauses see
/// both; where there is a request, it is one for this command.
#[derive(Drop)]
pub struct Asked<'a> {
    pub(crate) command: &'a Command,
    pub(crate) request: Option<WireEvent<'a>>,
}

impl<'a> Model for Asked<'a> {
    ghost use Rattle.std.specs.Prelude.{option_map};
    ghost use Rattle.std.specs.Coded.{codes};
    ghost use Rattle.kv_model.specs.contracts.call.Command as commands;
    ghost use Rattle.json_gateway.specs.Runs.{event_view};
    ghost use Rattle.event_book.specs.Asking.{Asking, IsAsked};

    ghost Value = { Asking };

    ghost coded = { Prim.hlevel (codes, commands.the_row.coded) };

    ghost view = { λ a. record {
      command = a.command.now;
      request = option_map event_view a.request;
    } };

    ghost invariant = { λ a. IsAsked (record {
      command = a.command.now;
      request = option_map event_view a.request;
    }) };
}

impl<'a> Asked<'a> {
    /// A command for which there is no request. Takes no memory.
    pub fn of(command: &'a Command) -> Self
        ensures { result ≡ record { command = command.now; request = None } }
    {
        Asked {
            command,
            request: None,
        }
    }

    /// A command that was read from a POST of this body to this path. Takes no memory.
    pub fn by(command: &'a Command, path: &'a [u8], body: &'a [u8]) -> Self
        requires { request_of path.now body.now ≡ Ok (call_of command.now) }
        ensures { result ≡ record {
          command = command.now;
          request = Some (events.WireEvent.post path.now body.now);
        } }
    {
        Asked {
            command,
            request: Some(WireEvent::Post { path, body }),
        }
    }
    /// The command. Where there is a request, it is one for it.
    pub fn command(&self) -> &Command
        ensures command { result.now ≡ self.now.command }
        ensures asked { IsAsked self.now }
    {
        self.command
    }
}
