// What a session talks to.
ghost use Rattle.std.specs.Prelude.{◌≡◌, ◌<◌, ◌≤◌, ◌+◌, ◌++◌, length, take, None, Some, vec_len, option_map};

use dbg_traits::{ArgText, FileRead, Polled, Put, World};
use std::alloc::Global;
use std::marker::Model;

/// The lines of a generated run as input, and what its session put.
#[derive(Drop)]
pub struct Script {
    /// The number that the run is generated from.
    pub number: u32,
    text: Vec<u8>,
    at: usize,
    polls: u64,
    ended: bool,
    /// What was put.
    pub output: Vec<u8>,
    put_faults: u64,
}

/// What a session talks to: the world that was handed in; or, in a generated run, a script, and the world is left alone.
pub struct Outside<W: World> {
    world: W,
    script: Option<Script>,
    // Whether the log of the session is wanted.
    has_log: bool,
}

impl<W: World> Model for Outside<W> {
    ghost use Rattle.std.specs.Coded.{codes};
    ghost use Rattle.session_parts.specs.Scene.{Scene};
    ghost use Rattle.session_parts.specs.OutsideInside.{scene_of, keeps};

    ghost Value = { Scene W };

    ghost coded = { Prim.hlevel (codes, W.code) };

    ghost view = { scene_of };

    ghost invariant = { λ o. keeps W.told o };
}

// Copies from a place on as much as both have, and says how much that is.
fn copy_from(from: &[u8], at: usize, into: &mut [u8]) -> usize
    requires within { at ≤ length from.now }
    requires room { 0 < length into.old }
    ensures within { result ≤ length into.new }
    ensures from { at + result ≤ length from.now }
    ensures grows { take (at + result) from.now ≡ take at from.now ++ take result into.new }
    ensures none { result ≡ 0 → at ≡ length from.now }
{
    let n = (from.len() - at).min(into.len());
    into[..n].copy_from_slice(&from[at..at + n]);
    n
}

impl Script {
    ghost use Rattle.session_parts.specs.OutsideInside.{play_of, PlayGives, PlayKeeps};

    fn poll(&mut self, into: &mut [u8]) -> Polled
        requires room { 0 < length into.old }
        requires within { self.old.at ≤ vec_len self.old.text }
        ensures { PlayGives result (play_of self.old) (play_of self.new) into.new }
    {
        self.polls = self.polls.saturating_add(1);
        let n = copy_from(self.text.as_slice(), self.at, into);
        if n == 0 {
            self.ended = true;
            return Polled::End;
        }
        self.at += n;
        Polled::Took(n)
    }

    fn put(&mut self, piece: &[u8]) -> Put
        requires { 0 < length piece.now }
        ensures { PlayKeeps result piece.now (play_of self.old) (play_of self.new) }
    {
        if self.output.extend_from_slice(piece).is_err() {
            self.put_faults = self.put_faults.saturating_add(1);
            return Put::Failed;
        }
        Put::Took(piece.len())
    }
}

impl<W: World> Outside<W> {
    ghost use Rattle.elf_gen.specs.Script.{script_text};
    ghost use Rattle.session_parts.specs.OutsideInside.{play_of};
    ghost use Rattle.session_parts.specs.Scene.{AskFile, AskNumber, IsUnused, Plays, begun};

    /// The world that was handed in, of a session whose log is wanted or isn't.
    pub fn handed(world: W, has_log: bool) -> Outside<W>
        requires { AskFile (W.told world).words has_log }
        ensures world { result.world ≡ world }
        ensures script { result.script ≡ None }
    {
        Outside {
            world,
            script: None,
            has_log,
        }
    }

    /// The script of a number over a world that wasn't used.
    pub fn scripted(alloc: Global, world: W, number: u32, text: Vec<u8>) -> Outside<W>
        requires asked { AskNumber (W.told world).words number }
        requires text { text.items ≡ script_text number }
        requires unused { IsUnused (W.told world) }
        ensures world { result.world ≡ world }
        ensures script { result.script ≡ Some (begun number text.items) }
    {
        let script = Script {
            number,
            text,
            at: 0,
            polls: 0,
            ended: false,
            output: Vec::new(alloc),
            put_faults: 0,
        };
        Outside {
            world,
            script: Some(script),
            has_log: false,
        }
    }

    /// Whether the log of the session is wanted.
    pub fn has_log(&self) -> bool
        ensures { result ≡ self.now.has_log }
    {
        self.has_log
    }

    /// The world that was handed in, and the script, if there is one.
    pub fn into_parts(self) -> (W, Option<Script>)
        ensures world { result.0 ≡ self.world }
        ensures script { option_map play_of result.1 ≡ self.script }
        ensures plays { Plays (W.told self.world) self.script self.has_log }
    {
        let Outside {
            world,
            script,
            has_log: _,
        } = self;
        (world, script)
    }
}

impl<W: World> World for Outside<W> {
    ghost use Rattle.session_parts.specs.Scene.{told_of};

    ghost told = { told_of W.told };

    fn words(&self) -> &[ArgText] {
        self.world.words()
    }

    fn read_file(&mut self, name: &ArgText, into: &mut [u8]) -> FileRead {
        self.world.read_file(name, into)
    }

    fn poll(&mut self, wait: bool, into: &mut [u8]) -> Polled {
        match &mut self.script {
            None => self.world.poll(wait, into),
            Some(script) => script.poll(into),
        }
    }

    fn put(&mut self, piece: &[u8]) -> Put {
        match &mut self.script {
            None => self.world.put(piece),
            Some(script) => script.put(piece),
        }
    }
}
