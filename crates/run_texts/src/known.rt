//! What a script names that the stack does not have.

ghost use Rattle.std.specs.Prelude.{◌≡◌, ◌≤◌, ◌<◌, drop, length, not, position, IfSome};
ghost use Rattle.std.specs.List.{list_all};
ghost use Rattle.std.specs.Option.{option_map, option_copied};
ghost use Rattle.script_text.specs.Grammar.{IsScript};
ghost use Rattle.run_texts.specs.Known.{has_machine, has_file, has_view, has_layer, is_known, unknown_client, unknown_in, unknown_call, unknown_line};

use script_text::{Call, CallLine, ClientLine, Script};
use stack_accept::{Mounted, NodeEntry};
use value_types::{Items, Path, Text};

/// Whether there is a machine of the name.
fn has_machine(mount: &Mounted, name: &Text) -> bool
    ensures { result ≡ has_machine mount.now name.now }
{
    let machines = mount.machines();
    machines.iter().any(|own| own.as_str() == name.as_str())
}

/// Whether there is a file of the name.
fn has_file(mount: &Mounted, name: &Text) -> bool
    ensures { result ≡ has_file mount.now name.now }
{
    let files = mount.files();
    files.iter().any(|file| file.name.as_str() == name.as_str())
}

/// Whether a view has the name.
fn has_view(mount: &Mounted, name: &Text) -> bool
    ensures { result ≡ has_view mount.now name.now }
{
    let nodes = mount.nodes();
    nodes.iter().any(|node| node.kind.is_view() && node.name.as_str() == name.as_str())
}

/// Whether each of the names is a view's.
fn has_views(mount: &Mounted, names: &Path) -> bool
    ensures { result ≡ list_all (has_view mount.now) names.now }
{
    names.as_slice().iter().all(|name| has_view(mount, name))
}

/// The nodes but the ground, which is the first.
fn layers(mount: &Mounted) -> &[NodeEntry]
    ensures { result.now ≡ drop 1 mount.now.nodes }
{
    &mount.nodes()[1..]
}

/// Whether a layer has the name.
fn has_layer(mount: &Mounted, name: &Text) -> bool
    ensures { result ≡ has_layer mount.now name.now }
{
    let layers = layers(mount);
    layers
        .iter()
        .any(|node| node.name.as_str() == name.as_str())
}

/// Whether the stack has what a call names.
fn is_known(mount: &Mounted, call: &Call) -> bool
    ensures { result ≡ is_known mount.now call.now }
{
    match call {
        Call::Bind { view, file, .. } => has_view(mount, view) && has_file(mount, file),
        Call::Replicate { file, views, .. } => has_file(mount, file) && has_views(mount, views),
        Call::Revoke { layer, file } | Call::Release { layer, file } => {
            has_layer(mount, layer) && has_file(mount, file)
        }
        _ => true,
    }
}

/// The place of the first client on a machine that the stack does not have.
fn unknown_place(mount: &Mounted, clients: &[ClientLine]) -> Option<usize>
    ensures value { result ≡ position (λ client. not (has_machine mount.now client.machine)) clients.now }
    ensures inside { IfSome result (λ place. place < length clients.now) }
{
    clients.iter().position(|c| !has_machine(mount, &c.machine))
}

/// The line of the first client on a machine that the stack does not have.
fn unknown_client(mount: &Mounted, clients: &[ClientLine]) -> Option<u32>
    requires { length clients.now ≤ 16 }
    ensures { result ≡ unknown_client mount.now clients.now }
{
    match unknown_place(mount, clients) {
        Some(place) => Some(place as u32 + 1),
        None => None,
    }
}

/// The first line of a phase whose call names what the stack does not have.
fn unknown_in<'a>(mount: &Mounted, lines: &'a [CallLine]) -> Option<&'a CallLine>
    ensures { option_copied result ≡ unknown_in mount.now lines.now }
{
    lines.iter().find(|l| !is_known(mount, &l.call))
}

/// The first line of a call that names what the stack does not have.
fn unknown_call(mount: &Mounted, phases: &[Items<CallLine>]) -> Option<u32>
    ensures { result ≡ option_map (λ l. l.line) (unknown_call mount.now phases.now) }
{
    for phase in phases {
        if let Some(line) = unknown_in(mount, phase.as_slice()) {
            return Some(line.line);
        }
    }
    None
}

/// The number, from 1, of the first line of a script that names a machine, a view, a layer or a file that the stack does
/// not have.
pub fn unknown_line(mount: &Mounted, script: &Script) -> Option<u32>
    requires { IsScript script.now }
    ensures { result ≡ unknown_line mount.now script.now }
{
    match unknown_client(mount, script.clients.as_slice()) {
        Some(line) => Some(line),
        None => unknown_call(mount, script.phases.as_slice()),
    }
}
