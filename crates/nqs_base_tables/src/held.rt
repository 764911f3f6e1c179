//! A value on the heap, in room that was taken before the value came. A move of it is one of an
//! address.
ghost use Rattle.std.specs.Prelude.{◌≡◌, Option, Some, is_some, true, OnOk, IfOk, length, ◌≤◌};
ghost use Rattle.std.specs.Fn.{FnOnceReturnsAtMut};
ghost use Rattle.std.specs.Map.Calls.{CalledAtPair};
ghost use Rattle.nqs_base_tables.specs.Held.{the};

use std::alloc::{AllocError, Global};
use std::marker::Model;
use std::mem::swap;

/// Room for one value.
pub type Room<V> = Box<Option<V>>;

/// A value in its room.
#[derive(Drop)]
pub struct Held<V> {
    room: Room<V>,
    ghost filled: { is_some room.value ≡ true },
}

impl<V> Model for Held<V> {
    ghost Value = { V };

    ghost coded = { V.code };

    ghost view = { λ h. the h.room.value h.filled };
}

impl<V> Held<V> {
    /// The value.
    pub(crate) fn get(&self) -> &V
        ensures { result.now ≡ self.now }
    {
        match self.room.as_ref() {
            Some(value) => value,
            None => unreachable!(),
        }
    }

    /// Takes the value out, and lets the room go.
    pub(crate) fn into_inner(self) -> V
        ensures { result ≡ self }
    {
        let Held { room } = self;
        Box::into_inner(room).unwrap()
    }

    /// Exchanges the value for another.
    pub(crate) fn exchange(&mut self, value: &mut V)
        ensures inside { self.new ≡ value.old }
        ensures out { value.new ≡ self.old }
    {
        match self.room.as_mut() {
            Some(inside) => swap(inside, value),
            None => unreachable!(),
        }
    }

    /// Changes the value.
    pub(crate) fn change<F: FnOnce(&mut V)>(&mut self, f: F)
        requires { F.IsAlwaysCallable f }
        ensures { FnOnceReturnsAtMut F.FnOnce f self.old tt self.new }
    {
        match self.room.as_mut() {
            Some(inside) => f(inside),
            None => unreachable!(),
        }
    }

    /// Changes the value, and answers what the change does.
    pub(crate) fn ask<K, F: FnMut(&K, &mut V) -> bool>(&mut self, key: &K, f: &mut F) -> bool
        requires { (s : F) (x y : _) → F.pre s x y }
        ensures { CalledAtPair F.FnMut f.old key.now self.old result self.new f.new }
    {
        match self.room.as_mut() {
            Some(inside) => f(key, inside),
            None => unreachable!(),
        }
    }
}

impl<V: Drop> Held<V> {
    /// Puts a value into its room.
    pub(crate) fn fill(mut room: Room<V>, value: V) -> Self
        ensures { result ≡ value }
    {
        let _empty = Box::replace(&mut room, Some(value));
        Held { room }
    }
}

/// Takes room until there are so many.
pub(crate) fn take_rooms<V: Drop>(
    alloc: Global,
    rooms: &mut Vec<Room<V>>,
    wanted: usize,
) -> Result<(), AllocError>
    ensures enough { OnOk result (wanted ≤ length rooms.new.items) }
    ensures kept { length rooms.old.items ≤ length rooms.new.items }
{
    while rooms.len() < wanted {
        rooms.push(Box::new(alloc, None)?)?;
    }
    Ok(())
}
